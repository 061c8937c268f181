//! The names of a twin's nets, pushed to its netlist by numbers.
ghost use Rattle.std.specs.Prelude.{◌≡◌, ◌+◌, ◌<◌, ◌^◌, length, IfOk, OnOk};
ghost use Rattle.register_synth.specs.Kept.{AreKept};
ghost use Rattle.twin_synth.specs.Numbered.{more_names};
ghost use Rattle.twin_synth.specs.Pushed.{fresh_number};
ghost use Rattle.twin_synth.specs.TwinNetlist.{control_of, twin_names};

use crate::names::{fresh_number, push_first_names, push_fresh_names, push_names};
use crate::numbered::Numbered;
use blif_read::Clock;
use register_synth::KeptPlaces;
use std::alloc::{AllocError, Global};
use tsc_net::Netlist;

/// Pushes the names of a twin: inputs and what is kept keep theirs, the copied registers and so many further nodes have fresh ones.
pub fn push_twin_names(
    alloc: Global,
    source: &Netlist,
    clock: &Option<Clock>,
    kept: &KeptPlaces,
    more: usize,
    numbered: &mut Numbered,
) -> Result<(), AllocError>
    requires kept { AreKept source.now.circuit kept.now.registers kept.now.covers }
    requires few { length kept.now.registers + more < 2 ^ 32 }
    ensures pushed { OnOk result (numbered.new ≡ more_names numbered.old (twin_names source.now clock.now kept.now.registers kept.now.covers more)) }
{
    // What the source keeps is known from here on.
    let _nets = source.nets();
    let number = number_for(alloc, source, clock)?;
    let registers = kept.registers.as_slice();
    let inputs = source.inputs();
    push_first_names(alloc, source, inputs, numbered)?;
    push_names(alloc, source, inputs, registers, numbered)?;
    push_fresh_names(alloc, number, 0, registers.len(), numbered)?;
    let first = inputs + source.latches();
    push_names(alloc, source, first, kept.covers.as_slice(), numbered)?;
    push_fresh_names(alloc, number, registers.len(), more, numbered)
}

/// The number of the fresh names, beside the control of a clock.
fn number_for(alloc: Global, source: &Netlist, clock: &Option<Clock>) -> Result<usize, AllocError>
    ensures number { IfOk result (λ number. number ≡ fresh_number source.now (control_of clock.now)) }
{
    match clock {
        Some(clock) => fresh_number(alloc, source, Some(clock.control.as_slice())),
        None => fresh_number(alloc, source, None),
    }
}
