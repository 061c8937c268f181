//! Small networks by hand.
ghost use Rattle.std.specs.Prelude.{◌≡◌, ◌<◌, false, IfOk};
ghost use Rattle.gate_net.specs.Gates.{IsLine, ReadsWithin};
ghost use Rattle.gate_net.specs.Growth.{Grows};
ghost use Rattle.gate_net.specs.Negations.{HasNo, is_state};

use gate_net::{Gate, Gates, Line, LineList};
use push_negations::push;
use std::alloc::{AllocError, Global};
use std::test::Fail;

/// More gates than a test makes.
const MOST_GATES: usize = 100;

/// Adds a gate that is no bit of the state.
fn add_plain(gates: &mut Gates, gate: Gate) -> Result<Line, AllocError>
    requires stateless { HasNo is_state gates.old.gates }
    requires plain { is_state gate ≡ false }
    requires reads { ReadsWithin gates.old gate }
    ensures stateless { HasNo is_state gates.new.gates }
    ensures line { IfOk result (IsLine gates.new) }
    ensures grows { Grows gates.old gates.new }
{
    if gates.len() > MOST_GATES {
        return Err(AllocError);
    }
    let line = gates.add(gate)?;
    Ok(line)
}

/// The exclusive or of two inputs.
fn exclusive_or(gates: &mut Gates) -> Result<Line, AllocError>
    requires stateless { HasNo is_state gates.old.gates }
    requires inputs { 1 < gates.old.inputs }
    ensures stateless { HasNo is_state gates.new.gates }
    ensures line { IfOk result (IsLine gates.new) }
{
    let a = add_plain(gates, Gate::Input { i: 0 })?;
    let b = add_plain(gates, Gate::Input { i: 1 })?;
    add_plain(gates, Gate::Xor { a, b })
}

/// The And of a line with itself, which is the negation of an And of two inputs.
fn shared_negation(gates: &mut Gates) -> Result<Line, AllocError>
    requires stateless { HasNo is_state gates.old.gates }
    requires inputs { 1 < gates.old.inputs }
    ensures stateless { HasNo is_state gates.new.gates }
    ensures line { IfOk result (IsLine gates.new) }
{
    let a = add_plain(gates, Gate::Input { i: 0 })?;
    let b = add_plain(gates, Gate::Input { i: 1 })?;
    let both = add_plain(gates, Gate::And { a, b })?;
    let missing = add_plain(gates, Gate::Not { a: both })?;
    add_plain(
        gates,
        Gate::And {
            a: missing,
            b: missing,
        },
    )
}

/// The line of a number.
fn line(number: u32) -> Line {
    Line { number }
}

/// Whether these are the gates of the lines, in order.
fn are_gates(gates: &Gates, expected: &[Gate]) -> bool {
    if gates.len() != expected.len() {
        return false;
    }
    for number in 0..gates.len() {
        let at = Line {
            number: number as u32,
        };
        if gates.gate(at) != expected[number] {
            return false;
        }
    }
    true
}

/// Whether line 6 of exactly these gates stands for the wanted line.
fn is_pushed(
    alloc: Global,
    gates: &Gates,
    wanted: Line,
    expected: &[Gate],
) -> Result<bool, AllocError>
    requires stateless { HasNo is_state gates.now.gates }
    requires wanted { IsLine gates.now wanted }
{
    if gates.len() > MOST_GATES {
        return Ok(false);
    }
    let wanted = LineList::from_slice(alloc, &[wanted])?;
    let made = push(alloc, gates, &wanted)?;
    Ok(made.outputs.as_slice() == [line(6)].as_slice() && are_gates(&made.gates, expected))
}

/// Line 6 is 1 exactly for 01 and 10.
#[test]
fn xor_is_its_cover(rt: HostRuntime) -> Result<(), Fail> {
    let expected = [
        Gate::Input { i: 0 },
        Gate::Not { a: line(0) },
        Gate::Input { i: 1 },
        Gate::Not { a: line(2) },
        Gate::And {
            a: line(0),
            b: line(3),
        },
        Gate::And {
            a: line(1),
            b: line(2),
        },
        Gate::Or {
            a: line(4),
            b: line(5),
        },
        Gate::And {
            a: line(0),
            b: line(2),
        },
        Gate::And {
            a: line(1),
            b: line(3),
        },
        Gate::Or {
            a: line(7),
            b: line(8),
        },
    ];
    let mut gates = Gates::new(rt.alloc(), 2, 0);
    let wanted = exclusive_or(&mut gates)?;
    assert!(rt; is_pushed(rt.alloc(), &gates, wanted, &expected)?);
    Ok(())
}

/// The negation of an And is an Or of negated inputs, and is read twice where it is made once.
#[test]
fn shared_negation_is_one_line(rt: HostRuntime) -> Result<(), Fail> {
    let expected = [
        Gate::Input { i: 0 },
        Gate::Not { a: line(0) },
        Gate::Input { i: 1 },
        Gate::Not { a: line(2) },
        Gate::And {
            a: line(0),
            b: line(2),
        },
        Gate::Or {
            a: line(1),
            b: line(3),
        },
        Gate::And {
            a: line(5),
            b: line(5),
        },
        Gate::Or {
            a: line(4),
            b: line(4),
        },
    ];
    let mut gates = Gates::new(rt.alloc(), 2, 0);
    let wanted = shared_negation(&mut gates)?;
    assert!(rt; is_pushed(rt.alloc(), &gates, wanted, &expected)?);
    Ok(())
}
