//! The first reason under a condition.
ghost use Rattle.std.specs.Prelude.{◌≡◌, ℕ, ◌+◌, ◌-◌, ◌*◌, ◌%◌, ◌<◌, ◌≤◌, min, length};
ghost use Rattle.tsc_bits.specs.Bits.{bits_of};
ghost use Rattle.fault_secure.specs.CodePlan.{monitored};
ghost use Rattle.fault_secure.specs.Logic.{states_of, inputs_of};
ghost use Rattle.tsc_net.specs.SourceView.{logic_of};
ghost use Rattle.behaviour_audit.specs.Points.{AreChosen, TellFree, HasWord, input_of};
ghost use Rattle.behaviour_audit.specs.Trial.{IsMatch, IsTrialOf, IsRoomOf, ShowsPoint, IsAnswerAt, IsFirstAnswer};
ghost use Rattle.fault_secure.specs.Exposing.{point_count};
ghost use Rattle.lane_sim.specs.Places.{point_at};

use crate::codeword::is_codeword;
use crate::condition::Condition;
use crate::lanes::Lanes;
use crate::next_state::arrives;
use crate::outputs::first_wrong;
use crate::reading::read_word;
use crate::reason::BehaviourReason;
use crate::reference::choose;
use crate::right_points::are_right;
use crate::room::Room;
use crate::trial::{Audited, Trial, settle_batch};
use code_lanes::{next_part, outputs_part};
use lane_sim::{Point, point_at};

/// The reason of the first of so many points that has one, under a condition.
pub(crate) fn first_reason(
    condition: Condition,
    trial: &mut Trial,
    room: &mut Room,
    audited: &Audited,
    count: usize,
) -> Option<BehaviourReason>
    requires trial { IsTrialOf audited.now trial.old }
    requires room { IsRoomOf audited.now room.old }
    requires few { count ≤ 1048576 }
    requires places { count ≤ point_count audited.now.net.now.circuit audited.now.plan.now }
    ensures first { IsFirstAnswer condition audited.now 0 count result }
    ensures trial { IsTrialOf audited.now trial.new }
    ensures room { IsRoomOf audited.now room.new }
{
    for batch in 0..(count + 1023) / 1024 {
        let first = batch * 1024;
        let past = (first + 1024).min(count);
        settle_batch(trial, audited, first, past);
        let found = reason_in_batch(condition, trial, room, audited, first, past);
        if found.is_some() {
            return found;
        }
    }
    None
}

/// The reason of the first point from `first` on and below `past` that has one, where the points are settled.
fn reason_in_batch(
    condition: Condition,
    trial: &Trial,
    room: &mut Room,
    audited: &Audited,
    first: usize,
    past: usize,
) -> Option<BehaviourReason>
    requires trial { IsTrialOf audited.now trial.now }
    requires room { IsRoomOf audited.now room.old }
    requires whole { first % 64 ≡ 0 }
    requires order { first ≤ past }
    requires batch { past ≤ first + 1024 }
    requires places { past ≤ point_count audited.now.net.now.circuit audited.now.plan.now }
    requires shows { (slot : ℕ) → first + slot < past → ShowsPoint audited.now trial.now slot (point_at audited.now.net.now.circuit.inputs (first + slot)) }
    ensures first { IsFirstAnswer condition audited.now first past result }
    ensures room { IsRoomOf audited.now room.new }
{
    for word in 0..(past - first + 63) / 64 {
        let found = reason_in_word(condition, trial, room, audited, first, past, word);
        if found.is_some() {
            return found;
        }
    }
    None
}

/// The reason of the first point of a word that has one: the word's 64 points are looked at one by one only where they aren't all seen
/// to be right at once.
fn reason_in_word(
    condition: Condition,
    trial: &Trial,
    room: &mut Room,
    audited: &Audited,
    first: usize,
    past: usize,
    word: usize,
) -> Option<BehaviourReason>
    requires trial { IsTrialOf audited.now trial.now }
    requires room { IsRoomOf audited.now room.old }
    requires whole { first % 64 ≡ 0 }
    requires word { first + word * 64 < past }
    requires batch { past ≤ first + 1024 }
    requires places { past ≤ point_count audited.now.net.now.circuit audited.now.plan.now }
    requires shows { (slot : ℕ) → first + slot < past → ShowsPoint audited.now trial.now slot (point_at audited.now.net.now.circuit.inputs (first + slot)) }
    ensures first { IsFirstAnswer condition audited.now (first + word * 64) (first + min (word * 64 + 64) (past - first)) result }
    ensures room { IsRoomOf audited.now room.new }
{
    if are_right(condition, trial, room, audited, first, past, word) {
        return None;
    }
    let past = first + (word * 64 + 64).min(past - first);
    reason_in_slots(condition, trial, room, audited, first, past, word * 64)
}

/// The reason of the first point from the slot `from` on that has one, one by one.
fn reason_in_slots(
    condition: Condition,
    trial: &Trial,
    room: &mut Room,
    audited: &Audited,
    first: usize,
    past: usize,
    from: usize,
) -> Option<BehaviourReason>
    requires trial { IsTrialOf audited.now trial.now }
    requires room { IsRoomOf audited.now room.old }
    requires order { first + from ≤ past }
    requires batch { past ≤ first + 1024 }
    requires places { past ≤ point_count audited.now.net.now.circuit audited.now.plan.now }
    requires shows { (slot : ℕ) → first + slot < past → ShowsPoint audited.now trial.now slot (point_at audited.now.net.now.circuit.inputs (first + slot)) }
    ensures first { IsFirstAnswer condition audited.now (first + from) past result }
    ensures room { IsRoomOf audited.now room.new }
{
    for slot in from..past - first {
        let point = point_at(audited.net.inputs(), first + slot);
        let found = reason_at(condition, trial, room, audited, slot, point);
        if found.is_some() {
            return found;
        }
    }
    None
}

/// The reason of a point that is settled at a slot, if there is one.
fn reason_at(
    condition: Condition,
    trial: &Trial,
    room: &mut Room,
    audited: &Audited,
    slot: usize,
    point: Point,
) -> Option<BehaviourReason>
    requires trial { IsTrialOf audited.now trial.now }
    requires room { IsRoomOf audited.now room.old }
    requires slot { slot < 1024 }
    requires state { point.state < states_of (logic_of audited.now.source.now) }
    requires shows { ShowsPoint audited.now trial.now slot point }
    ensures answer { IsAnswerAt condition audited.now point result }
    ensures room { IsRoomOf audited.now room.new }
{
    let Audited { source, net, plan } = *audited;
    read_word(&trial.watch, net, plan, slot, point, &mut room.word);
    match condition {
        Condition::NextState => next_reason(audited, point, room.word.as_slice()),
        Condition::WordAndOutputs => {
            choose(
                &trial.reference,
                source,
                slot,
                point,
                &mut room.chosen,
                &mut room.free,
            );
            shown_reason(
                audited,
                point,
                room.word.as_slice(),
                room.chosen.as_slice(),
                room.free.as_slice(),
                &mut room.lanes,
            )
        }
    }
}

/// The reason of a point whose next state is wrong.
fn next_reason(audited: &Audited, point: Point, word: &[bool]) -> Option<BehaviourReason>
    requires fit { IsMatch (logic_of audited.now.source.now) audited.now.net.now.circuit audited.now.plan.now }
    requires state { point.state < states_of (logic_of audited.now.source.now) }
    requires sized { length word.now ≡ length (monitored audited.now.net.now.circuit audited.now.plan.now) }
    requires word { HasWord audited.now.net.now.circuit audited.now.plan.now point.state (input_of audited.now.net.now.circuit.inputs point) word.now }
    ensures answer { IsAnswerAt Condition.NextState audited.now point result }
{
    let plan = audited.plan;
    if arrives(audited.source, plan, point, next_part(plan, word)) {
        None
    } else {
        Some(BehaviourReason::Next {
            state: point.state,
            input: point.input,
        })
    }
}

/// The reason of a point whose word or whose outputs are wrong. `lanes` has room for one lane per monitored net, and is written over.
fn shown_reason(
    audited: &Audited,
    point: Point,
    word: &[bool],
    chosen: &[bool],
    free: &[bool],
    lanes: &mut Lanes,
) -> Option<BehaviourReason>
    requires fit { IsMatch (logic_of audited.now.source.now) audited.now.net.now.circuit audited.now.plan.now }
    requires state { point.state < states_of (logic_of audited.now.source.now) }
    requires sized { length word.now ≡ length (monitored audited.now.net.now.circuit audited.now.plan.now) }
    requires word { HasWord audited.now.net.now.circuit audited.now.plan.now point.state (input_of audited.now.net.now.circuit.inputs point) word.now }
    requires room { length chosen.now ≡ audited.now.plan.now.outputs }
    requires free_room { length free.now ≡ audited.now.plan.now.outputs }
    requires lanes { length lanes.old ≡ length word.now }
    requires chosen { AreChosen (logic_of audited.now.source.now) point.state (bits_of (inputs_of (logic_of audited.now.source.now)) point.input) chosen.now }
    requires free { TellFree (logic_of audited.now.source.now) (bits_of (inputs_of (logic_of audited.now.source.now)) point.input) free.now }
    ensures answer { IsAnswerAt Condition.WordAndOutputs audited.now point result }
    ensures lanes { length lanes.new ≡ length lanes.old }
{
    let plan = audited.plan;
    if !is_codeword(plan, word, lanes) {
        return Some(BehaviourReason::Word {
            state: point.state,
            input: point.input,
        });
    }
    match first_wrong(
        audited.source,
        plan.version,
        point,
        outputs_part(plan, word),
        chosen,
        free,
    ) {
        Some(bit) => Some(BehaviourReason::Output {
            state: point.state,
            input: point.input,
            bit,
        }),
        None => None,
    }
}
