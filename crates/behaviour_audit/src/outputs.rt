//! The outputs that a source chooses, and those that it allows.
ghost use Rattle.std.specs.Prelude.{◌≡◌, ◌↔◌, ◌<◌, length, IsTrue};
ghost use Rattle.tsc_bits.specs.Bits.{bits_of};
ghost use Rattle.fault_secure.specs.Circuit.{bit};
ghost use Rattle.fault_secure.specs.Logic.{States, states_of, inputs_of, outputs_count, answering, outputs_of_rows};
ghost use Rattle.tsc_net.specs.SourceView.{logic_of};
ghost use Rattle.behaviour_audit.specs.Breaks.{AllowsBit};
ghost use Rattle.behaviour_audit.specs.Points.{AreChosen, TellFree};
ghost use Rattle.behaviour_audit.specs.Trial.{IsFirstWrong, LeavesFree};

use crate::bits::write_number;
use lane_sim::{Point, with_bit};
use tsc_net::{Bits, Machine, SourceMeaning};

/// Writes the outputs that a machine chooses.
pub(crate) fn write_answer(machine: &Machine, point: Point, outputs: &mut Bits)
    requires state { point.state < machine.now.table.states }
    requires sized { length outputs.old ≡ machine.now.table.outputs }
    ensures outputs { outputs.new ≡ outputs_of_rows machine.now.table (answering machine.now.table point.state (bits_of machine.now.table.inputs point.input)) }
    ensures sized { length outputs.new ≡ length outputs.old }
{
    // A machine has at most 4,096 states and 64 outputs.
    let _states = machine.states();
    let _outputs = machine.outputs();
    let answer = machine.answer(point.state as u32, point.input);
    write_number(outputs, answer.outputs);
}

/// The first output that the source doesn't allow.
pub(crate) fn first_wrong(
    source: &SourceMeaning,
    version: u8,
    point: Point,
    outputs: &[bool],
    chosen: &[bool],
    free: &[bool],
) -> Option<usize>
    requires state { point.state < states_of (logic_of source.now) }
    requires outputs { length outputs.now ≡ outputs_count (logic_of source.now) }
    requires sized { length chosen.now ≡ outputs_count (logic_of source.now) }
    requires free_sized { length free.now ≡ outputs_count (logic_of source.now) }
    requires chosen { AreChosen (logic_of source.now) point.state (bits_of (inputs_of (logic_of source.now)) point.input) chosen.now }
    requires free { TellFree (logic_of source.now) (bits_of (inputs_of (logic_of source.now)) point.input) free.now }
    ensures wrong { IsFirstWrong (logic_of source.now) version point.state (bits_of (inputs_of (logic_of source.now)) point.input) outputs.now result }
{
    for place in 0..outputs.len() {
        if outputs[place] != chosen[place]
            && !is_free(source, version, point, place, outputs[place], free)
        {
            return Some(place);
        }
    }
    None
}

/// Whether the source, which chooses another bit at an output's place, leaves that output free.
fn is_free(
    source: &SourceMeaning,
    version: u8,
    point: Point,
    place: usize,
    bit: bool,
    free: &[bool],
) -> bool
    requires state { point.state < states_of (logic_of source.now) }
    requires place { place < outputs_count (logic_of source.now) }
    requires sized { length free.now ≡ outputs_count (logic_of source.now) }
    requires free { TellFree (logic_of source.now) (bits_of (inputs_of (logic_of source.now)) point.input) free.now }
    ensures free { IsTrue result ↔ LeavesFree (logic_of source.now) version point.state (bits_of (inputs_of (logic_of source.now)) point.input) place bit }
{
    match source {
        SourceMeaning::Network(_) => false,
        SourceMeaning::Machine(machine) => {
            version == 2 && machine_allows_bit(machine, point, place, bit)
        }
        SourceMeaning::Loose(_) => version == 2 && free[place],
    }
}

/// Whether the machine, under a plan of version 2, allows a bit at an output's place.
fn machine_allows_bit(machine: &Machine, point: Point, place: usize, bit: bool) -> bool
    requires state { point.state < machine.now.table.states }
    requires place { place < machine.now.table.outputs }
    ensures allowed { IsTrue result ↔ AllowsBit (States machine.now.table) 2 point.state (bits_of machine.now.table.inputs point.input) place bit }
{
    // A machine has at most 4,096 states.
    let _states = machine.states();
    let state = point.state as u32;
    let answer = machine.answer(state, point.input);
    let outputs = with_bit(answer.outputs, machine.outputs() - 1 - place, bit);
    machine.allows(state, point.input, outputs, answer.next)
}
