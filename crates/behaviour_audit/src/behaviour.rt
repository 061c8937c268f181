//! The audit of a netlist's behaviour without a fault.
ghost use Rattle.std.specs.Prelude.{◌≡◌, ℕ, Bool, List, ◌↔◌, ◌*◌, ◌^◌, ◌≤◌, length, IfOk, IsTrue, Some};
ghost use Rattle.fault_secure.specs.Circuit.{nets};
ghost use Rattle.fault_secure.specs.Run.{init_state};
ghost use Rattle.fault_secure.specs.CodePlan.{IsPlanOf};
ghost use Rattle.fault_secure.specs.Logic.{states_of, inputs_of, outputs_count, reset_of};
ghost use Rattle.fault_secure.specs.FaultSecure.{state_at};
ghost use Rattle.tsc_net.specs.SourceView.{logic_of};
ghost use Rattle.behaviour_audit.specs.Meaning.{FitsABench};
ghost use Rattle.behaviour_audit.specs.Reason.{IsBehaviourAnswer, Starts};
ghost use Rattle.behaviour_audit.specs.Points.{ArrivesAt};
ghost use Rattle.behaviour_audit.specs.Trial.{IsSoundSource, IsTrialOf, IsRoomOf, IsFirstAnswer};
ghost use Rattle.fault_secure.specs.Exposing.{listed_states, point_count};
ghost use Rattle.tsc_net.specs.Limits.{most_nets};

use crate::condition::Condition;
use crate::next_state::state_of;
use crate::opening::{room_of, trial_of};
use crate::reason::BehaviourReason;
use crate::room::Room;
use crate::search::first_reason;
use crate::trial::{Audited, Trial};
use lane_sim::width_of;
use std::alloc::{AllocError, Global};
use tsc_net::{Bits, Netlist, Plan, SourceMeaning};

/// Whether the netlist, without a fault, follows its source at every listed state and input: none where it does, else the first
/// reason. The reset state comes first; then, at all points, the next states; then, point by point, the word and the outputs. A
/// point is a listed state (without latches the state 0) and an input; points come by state, then by the input as a binary number.
///
/// # Errors
///
/// Want of memory.
pub fn behaviour_reason(
    alloc: Global,
    source: &SourceMeaning,
    net: &Netlist,
    plan: &Plan,
) -> Result<Option<BehaviourReason>, AllocError>
    requires plan { IsPlanOf net.now.circuit plan.now }
    requires latches { length net.now.circuit.latches ≤ 64 }
    requires nets { nets net.now.circuit ≤ most_nets }
    requires source { FitsABench (logic_of source.now) }
    requires inputs { net.now.circuit.inputs ≡ inputs_of (logic_of source.now) }
    requires outputs { plan.now.outputs ≡ outputs_count (logic_of source.now) }
    requires states { listed_states plan.now ≡ states_of (logic_of source.now) }
    requires few { states_of (logic_of source.now) * 2 ^ inputs_of (logic_of source.now) ≤ 1048576 }
    ensures answer { IfOk result (IsBehaviourAnswer (logic_of source.now) net.now.circuit plan.now) }
{
    // What a plan and a source keep is known from here on.
    let _states = plan.states.len();
    let reset = reset_of(source);
    if !starts(alloc, net, plan, reset)? {
        return Ok(Some(BehaviourReason::Reset));
    }
    let audited = Audited { source, net, plan };
    let mut room = room_of(alloc, &audited)?;
    let mut trial = trial_of(alloc, &audited)?;
    let found = reason_of(&mut trial, &mut room, &audited);
    trial.close();
    Ok(found)
}

/// The reset state of a source, which is sound.
fn reset_of(source: &SourceMeaning) -> usize
    requires source { FitsABench (logic_of source.now) }
    ensures reset { result ≡ reset_of (logic_of source.now) }
    ensures sound { IsSoundSource (logic_of source.now) }
{
    if let SourceMeaning::Machine(machine) = source {
        // A machine is a state table.
        let _states = machine.states();
    }
    source.reset() as usize
}

/// Whether the bits that the latches hold first are the word of the reset state.
fn starts(alloc: Global, net: &Netlist, plan: &Plan, reset: usize) -> Result<bool, AllocError>
    requires plan { IsPlanOf net.now.circuit plan.now }
    ensures starts { IfOk result (λ starts. IsTrue starts ↔ (state_at plan.now (init_state net.now.circuit) ≡ Some reset)) }
{
    let bits = first_bits(alloc, net)?;
    Ok(state_of(plan, bits.as_slice()) == Some(reset))
}

/// The bits that the latches hold first.
fn first_bits(alloc: Global, net: &Netlist) -> Result<Bits, AllocError>
    ensures bits { IfOk result (λ bits. bits ≡ init_state net.now.circuit) }
{
    let mut bits = Bits::new(alloc);
    for place in 0..net.latches() {
        bits.push(net.latch(place).init)?;
    }
    Ok(bits)
}

/// The first reason after the reset state, if there is one.
fn reason_of(trial: &mut Trial, room: &mut Room, audited: &Audited) -> Option<BehaviourReason>
    requires trial { IsTrialOf audited.now trial.old }
    requires room { IsRoomOf audited.now room.old }
    requires few { point_count audited.now.net.now.circuit audited.now.plan.now ≤ 1048576 }
    requires starts { Starts (logic_of audited.now.source.now) audited.now.net.now.circuit audited.now.plan.now }
    ensures answer { IsBehaviourAnswer (logic_of audited.now.source.now) audited.now.net.now.circuit audited.now.plan.now result }
{
    let count = audited.plan.listed_states() * width_of(audited.net.inputs());
    let next = first_wrong_next(trial, room, audited, count);
    if next.is_some() {
        return next;
    }
    first_reason(Condition::WordAndOutputs, trial, room, audited, count)
}

/// The reason of the first of so many points whose next state is wrong. Where none can be, no point is tried.
fn first_wrong_next(
    trial: &mut Trial,
    room: &mut Room,
    audited: &Audited,
    count: usize,
) -> Option<BehaviourReason>
    requires trial { IsTrialOf audited.now trial.old }
    requires room { IsRoomOf audited.now room.old }
    requires few { count ≤ 1048576 }
    requires places { count ≤ point_count audited.now.net.now.circuit audited.now.plan.now }
    ensures first { IsFirstAnswer Condition.NextState audited.now 0 count result }
    ensures trial { IsTrialOf audited.now trial.new }
    ensures room { IsRoomOf audited.now room.new }
{
    if always_arrives(audited.source, audited.plan) {
        return None;
    }
    first_reason(Condition::NextState, trial, room, audited, count)
}

/// True only where each step arrives where the source allows, whatever the bits at the latch inputs are, as it is of a network,
/// where there are no latches. False promises nothing.
fn always_arrives(source: &SourceMeaning, plan: &Plan) -> bool
    ensures arrives { IsTrue result → (q : ℕ) (x next : List Bool) → ArrivesAt (logic_of source.now) plan.now q x next }
{
    match source {
        SourceMeaning::Network(_) => plan.states.width() == 0,
        SourceMeaning::Loose(_) => plan.states.width() == 0,
        SourceMeaning::Machine(_) => false,
    }
}
