//! State words and their gates: each call once.
ghost use Rattle.std.specs.Prelude.{◌≡◌, ◌≤◌, length, IfOk};
ghost use Rattle.state_code.specs.Lines.{rows_at};

use gate_net::{Gate, Gates, LineList};
use state_code::{CodeError, StateCode, codes, decode, row_lines, select};
use std::alloc::{AllocError, Global};
use std::test::Fail;
use tsc_cover::Row01;
use tsc_net::{Machine, MachineRow, MachineRows, StateList};

/// How many bits the words of so many states have, and how many words there are.
fn bits_and_words(alloc: Global, states: usize) -> Result<(usize, usize), CodeError>
    requires some { 1 ≤ states }
{
    let code = codes(alloc, states)?;
    Ok((code.n, code.words.len()))
}

#[test]
fn codes_are_of_at_most_924_states(rt: HostRuntime) -> Result<(), Fail> {
    assert_eq!(rt; bits_and_words(rt.alloc(), 7)?, (6, 7));
    assert_eq!(rt; bits_and_words(rt.alloc(), 924)?, (12, 924));
    assert!(rt; matches!(bits_and_words(rt.alloc(), 925), Err(CodeError::TooMany)));
    Ok(())
}

#[test]
fn words_of_seven_states(rt: HostRuntime) -> Result<(), Fail> {
    let code = codes(rt.alloc(), 7)?;
    assert!(rt; code.words.as_slice() == [7, 11, 13, 14, 19, 21, 22].as_slice());
    Ok(())
}

/// The code with the words 011 and 101.
fn two_words(alloc: Global) -> Result<StateCode, AllocError>
    ensures bits { IfOk result (λ code. code.n ≡ 3) }
    ensures width { IfOk result (λ code. code.words.width ≡ 3) }
    ensures count { IfOk result (λ code. length code.words.words ≡ 2) }
{
    let mut words = StateList::new(alloc, 3);
    words.push(3)?;
    words.push(5)?;
    Ok(StateCode { n: 3, m: 2, words })
}

#[test]
fn words_are_decoded_by_and(rt: HostRuntime) -> Result<(), Fail> {
    let code = two_words(rt.alloc())?;
    let mut gates = Gates::new(rt.alloc(), 0, 3);
    let first = gates.add(Gate::State { i: 0 })?;
    let second = gates.add(Gate::State { i: 1 })?;
    let third = gates.add(Gate::State { i: 2 })?;
    let lines = decode(rt.alloc(), &mut gates, &code)?;
    let expected = [
        Gate::And {
            a: second,
            b: third,
        },
        Gate::And { a: first, b: third },
    ];
    assert!(rt;
        gates.gate(*lines.get(0)) == expected[0]
            && gates.gate(*lines.get(1)) == expected[1]
            && gates.len() == 5
    );
    Ok(())
}

#[test]
fn a_place_of_zero_adds_nothing(rt: HostRuntime) -> Result<(), Fail> {
    let mut gates = Gates::new(rt.alloc(), 1, 2);
    let first = gates.add(Gate::State { i: 0 })?;
    let second = gates.add(Gate::State { i: 1 })?;
    let zero = gates.add(Gate::Zero)?;
    let input = gates.add(Gate::Input { i: 0 })?;
    let decoded = LineList::from_slice(rt.alloc(), &[first, second])?;
    let per_state = LineList::from_slice(rt.alloc(), &[zero, input])?;
    let line = select(rt.alloc(), &mut gates, &decoded, &per_state)?;
    let expected = Gate::And {
        a: second,
        b: input,
    };
    assert!(rt; gates.gate(line) == expected && gates.len() == 5);
    Ok(())
}

/// The machine of one state, one input and one output, whose one row answers where the input is 1.
fn one_row(alloc: Global) -> Result<Machine, AllocError>
    ensures states { IfOk result (λ machine. machine.table.states ≡ 1) }
    ensures inputs { IfOk result (λ machine. machine.table.inputs ≡ 1) }
    ensures rows { IfOk result (λ machine. length (rows_at machine.table 0) ≡ 1) }
{
    let row = MachineRow {
        input: Row01 { care: 1, value: 1 },
        from: None,
        next: 0,
        named: true,
        outputs: 1,
        care: 1,
        line: 1,
    };
    let rows = MachineRows::from_slice(alloc, &[row])?;
    Ok(Machine::of(1, 1, 1, 0, rows))
}

#[test]
fn no_row_is_a_negated_input(rt: HostRuntime) -> Result<(), Fail> {
    let machine = one_row(rt.alloc())?;
    let mut gates = Gates::new(rt.alloc(), 1, 0);
    let lines = row_lines(rt.alloc(), &machine, 0, &mut gates)?;
    let row = *lines.rows.get(0);
    assert!(rt;
        lines.rows.len() == 1
            && gates.gate(row) == (Gate::Input { i: 0 })
            && gates.gate(lines.other) == (Gate::Not { a: row })
            && gates.len() == 2
    );
    Ok(())
}
