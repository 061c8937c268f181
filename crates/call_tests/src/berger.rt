//! Berger checks: each call once.
ghost use Rattle.std.specs.Prelude.{◌≤◌, length};
ghost use Rattle.gate_net.specs.Gates.{IsLine};

use berger_code::{add_berger, berger_width, check_of, zero_line};
use gate_net::{Gate, Gates, Line, LineList};
use std::alloc::{AllocError, Global};
use std::test::Fail;

#[test]
fn widths_are_least(rt: HostRuntime) -> Result<(), Fail> {
    assert!(rt; berger_width(3) == 2 && berger_width(4) == 3 && berger_width(64) == 7);
    Ok(())
}

#[test]
fn zeros_are_counted(rt: HostRuntime) -> Result<(), Fail> {
    assert!(rt; check_of(3, 2) == 2 && check_of(64, 1) == 63);
    Ok(())
}

/// How many checks two outputs have that are one line.
fn checks_of_two(alloc: Global) -> Result<usize, AllocError> {
    let mut gates = Gates::new(alloc, 1, 0);
    let output = gates.add(Gate::Input { i: 0 })?;
    let outputs = LineList::from_slice(alloc, &[output, output])?;
    Ok(add_berger(alloc, &mut gates, &outputs)?.len())
}

#[test]
fn two_outputs_have_two_checks(rt: HostRuntime) -> Result<(), Fail> {
    assert_eq!(rt; checks_of_two(rt.alloc())?, 2);
    Ok(())
}

/// Whether the zero of a line is another line, and the same one when it is asked for again.
fn has_one_zero(gates: &mut Gates, output: Line) -> Result<bool, AllocError>
    requires few { length gates.old.gates ≤ 100 }
    requires output { IsLine gates.old output }
{
    let zero = zero_line(gates, output)?;
    Ok(zero_line(gates, output)? == zero && zero != output)
}

#[test]
fn a_zero_has_one_line(rt: HostRuntime) -> Result<(), Fail> {
    let mut gates = Gates::new(rt.alloc(), 1, 0);
    let output = gates.add(Gate::Input { i: 0 })?;
    assert!(rt; has_one_zero(&mut gates, output)?);
    Ok(())
}
