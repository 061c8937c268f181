//! Thermometer checks: each call once.

use gate_net::{Gate, Gates, LineList};
use mofn_code::{add_thermo, thermo_of};
use std::alloc::{AllocError, Global};
use std::test::Fail;

#[test]
fn thermometers_show_zeros(rt: HostRuntime) -> Result<(), Fail> {
    assert!(rt; thermo_of(3, 2) == 6 && thermo_of(3, 7) == 0 && thermo_of(64, 0) == u64::MAX);
    Ok(())
}

/// How many checks two outputs have that are one line.
fn checks_of_two(alloc: Global) -> Result<usize, AllocError> {
    let mut gates = Gates::new(alloc, 1, 0);
    let output = gates.add(Gate::Input { i: 0 })?;
    let outputs = LineList::from_slice(alloc, &[output, output])?;
    Ok(add_thermo(alloc, &mut gates, &outputs)?.len())
}

#[test]
fn two_outputs_have_two_checks(rt: HostRuntime) -> Result<(), Fail> {
    assert_eq!(rt; checks_of_two(rt.alloc())?, 2);
    Ok(())
}
