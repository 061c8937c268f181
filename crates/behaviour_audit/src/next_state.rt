//! Whether a step arrives where the source allows.
ghost use Rattle.std.specs.Prelude.{◌≡◌, ◌↔◌, ◌<◌, ◌==◌, ◌%◌, ◌^◌, length, position, IsTrue};
ghost use Rattle.tsc_bits.specs.Bits.{bits_of};
ghost use Rattle.fault_secure.specs.Logic.{States, AllowsNext, states_of, inputs_of};
ghost use Rattle.fault_secure.specs.FaultSecure.{state_at};
ghost use Rattle.tsc_net.specs.SourceView.{logic_of};
ghost use Rattle.behaviour_audit.specs.Points.{ArrivesAt};
ghost use Rattle.fault_secure.specs.Exposing.{listed_states};

use crate::bits::last_bits;
use lane_sim::Point;
use tsc_bits::number_of;
use tsc_net::{Machine, Plan, SourceMeaning, StateList};

/// Whether the bits at the latch inputs are the word of a listed state that the source allows as the next one.
pub(crate) fn arrives(source: &SourceMeaning, plan: &Plan, point: Point, next: &[bool]) -> bool
    requires state { point.state < states_of (logic_of source.now) }
    requires states { listed_states plan.now ≡ states_of (logic_of source.now) }
    requires sized { length next.now ≡ plan.now.latches }
    ensures arrives { IsTrue result ↔ ArrivesAt (logic_of source.now) plan.now point.state (bits_of (inputs_of (logic_of source.now)) point.input) next.now }
{
    match state_of(plan, next) {
        Some(next) => allows_next(source, plan.version, point, next),
        None => false,
    }
}

/// The listed state whose word these bits are; without latches the state 0.
pub(crate) fn state_of(plan: &Plan, bits: &[bool]) -> Option<usize>
    requires sized { length bits.now ≡ plan.now.latches }
    ensures state { result ≡ state_at plan.now bits.now }
{
    if plan.states.width() == 0 {
        Some(0)
    } else {
        place_of(&plan.states, number_of(bits))
    }
}

/// The place of the first word whose last bits, as many as the words have, are those of a number.
fn place_of(states: &StateList, number: u64) -> Option<usize>
    ensures place { result ≡ position (λ word. word % 2 ^ states.now.width == number) states.now.words }
{
    let width = states.width();
    states
        .as_slice()
        .iter()
        .position(|word| last_bits(*word, width) == number)
}

/// Whether the source allows a state as the next one.
fn allows_next(source: &SourceMeaning, version: u8, point: Point, next: usize) -> bool
    requires state { point.state < states_of (logic_of source.now) }
    requires next { next < states_of (logic_of source.now) }
    ensures allowed { IsTrue result ↔ AllowsNext (logic_of source.now) version point.state (bits_of (inputs_of (logic_of source.now)) point.input) next }
{
    match source {
        SourceMeaning::Network(_) | SourceMeaning::Loose(_) => next == 0,
        SourceMeaning::Machine(machine) => machine_allows_next(machine, version, point, next),
    }
}

/// Whether the machine allows a state as the next one.
fn machine_allows_next(machine: &Machine, version: u8, point: Point, next: usize) -> bool
    requires state { point.state < machine.now.table.states }
    requires next { next < machine.now.table.states }
    ensures allowed { IsTrue result ↔ AllowsNext (States machine.now.table) version point.state (bits_of machine.now.table.inputs point.input) next }
{
    // A machine has at most 4,096 states.
    let _states = machine.states();
    let state = point.state as u32;
    let answer = machine.answer(state, point.input);
    next as u32 == answer.next
        || version == 2 && machine.allows(state, point.input, answer.outputs, next as u32)
}
