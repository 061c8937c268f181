//! Which of 64 points are seen to be right at once: a net is a lane.
ghost use Rattle.std.specs.Prelude.{◌≡◌, ℕ, ◌+◌, ◌*◌, ◌<◌, ◌≤◌, ◌%◌, length, IsTrue, IsSome, false, None};
ghost use Rattle.tsc_bits.specs.Bits.{bit_worth, bits_of};
ghost use Rattle.fault_secure.specs.CodePlan.{IsWellMade};
ghost use Rattle.fault_secure.specs.Logic.{inputs_of, states_of};
ghost use Rattle.tsc_net.specs.SourceView.{logic_of};
ghost use Rattle.behaviour_audit.specs.Points.{ArrivesAt};
ghost use Rattle.code_lanes.specs.Lanes.{column};
ghost use Rattle.behaviour_audit.specs.Lanes.{HoldsAtZeros};
ghost use Rattle.behaviour_audit.specs.Trial.{IsSoundSource, IsTrialOf, IsRoomOf, ShowsPoint, IsAnswerAt};
ghost use Rattle.fault_secure.specs.Exposing.{listed_states, point_count};
ghost use Rattle.lane_sim.specs.Places.{point_at};

use crate::condition::Condition;
use crate::next_lanes::{forbidden_next_states, other_words};
use crate::output_lanes::wrong_outputs;
use crate::reading::read_words;
use crate::room::Room;
use crate::trial::{Audited, Trial};
use code_lanes::{next_part, no_codewords, outputs_part};
use tsc_net::{Plan, SourceMeaning};

/// Whether the points of a word that stand before `past` are all seen to be right under a condition. Points that aren't seen to be may
/// be right nevertheless.
pub(crate) fn are_right(
    condition: Condition,
    trial: &Trial,
    room: &mut Room,
    audited: &Audited,
    first: usize,
    past: usize,
    word: usize,
) -> bool
    requires trial { IsTrialOf audited.now trial.now }
    requires room { IsRoomOf audited.now room.old }
    requires whole { first % 64 ≡ 0 }
    requires word { first + word * 64 < past }
    requires batch { past ≤ first + 1024 }
    requires places { past ≤ point_count audited.now.net.now.circuit audited.now.plan.now }
    requires shows { (slot : ℕ) → first + slot < past → ShowsPoint audited.now trial.now slot (point_at audited.now.net.now.circuit.inputs (first + slot)) }
    ensures right { IsTrue result → (slot : ℕ) → word * 64 ≤ slot → slot < word * 64 + 64 → first + slot < past
        → IsAnswerAt condition audited.now (point_at audited.now.net.now.circuit.inputs (first + slot)) None }
    ensures room { IsRoomOf audited.now room.new }
{
    let base = first + word * 64;
    unseen(condition, trial, room, audited, base, word) == 0
}

/// The points of a word, which stand from the place `base` on, that aren't seen to be right under a condition.
fn unseen(
    condition: Condition,
    trial: &Trial,
    room: &mut Room,
    audited: &Audited,
    base: usize,
    word: usize,
) -> u64
    requires trial { IsTrialOf audited.now trial.now }
    requires room { IsRoomOf audited.now room.old }
    requires whole { base % 64 ≡ 0 }
    requires word { word < 16 }
    requires shows { ShowsPoint audited.now trial.now (word * 64) (point_at audited.now.net.now.circuit.inputs base) }
    ensures right { (k : ℕ) → k < 64 → bit_worth k result ≡ false
        → ShowsPoint audited.now trial.now (word * 64 + k) (point_at audited.now.net.now.circuit.inputs (base + k))
        → IsAnswerAt condition audited.now (point_at audited.now.net.now.circuit.inputs (base + k)) None }
    ensures room { IsRoomOf audited.now room.new }
{
    match condition {
        Condition::NextState => unseen_next(trial, room, audited, base, word),
        Condition::WordAndOutputs => unseen_outputs(trial, room, audited, base, word),
    }
}

/// The points of a word, which stand from the place `base` on, whose next states aren't seen to be right.
fn unseen_next(trial: &Trial, room: &mut Room, audited: &Audited, base: usize, word: usize) -> u64
    requires trial { IsTrialOf audited.now trial.now }
    requires settled { IsSome trial.now.watch.bench.lanes }
    requires room { IsRoomOf audited.now room.old }
    requires whole { base % 64 ≡ 0 }
    requires word { word < 16 }
    ensures right { (k : ℕ) → k < 64 → bit_worth k result ≡ false
        → ShowsPoint audited.now trial.now (word * 64 + k) (point_at audited.now.net.now.circuit.inputs (base + k))
        → IsAnswerAt Condition.NextState audited.now (point_at audited.now.net.now.circuit.inputs (base + k)) None }
    ensures room { IsRoomOf audited.now room.new }
{
    let Audited { source, net, plan } = *audited;
    read_words(&trial.watch, net, plan, word, &mut room.lanes);
    wrong_next(source, plan, base, next_part(plan, room.lanes.as_slice()))
}

/// The points of a word, which stand from the place `base` on, whose words and outputs aren't seen to be right.
fn unseen_outputs(
    trial: &Trial,
    room: &mut Room,
    audited: &Audited,
    base: usize,
    word: usize,
) -> u64
    requires trial { IsTrialOf audited.now trial.now }
    requires room { IsRoomOf audited.now room.old }
    requires whole { base % 64 ≡ 0 }
    requires word { word < 16 }
    requires shows { ShowsPoint audited.now trial.now (word * 64) (point_at audited.now.net.now.circuit.inputs base) }
    ensures right { (k : ℕ) → k < 64 → bit_worth k result ≡ false
        → ShowsPoint audited.now trial.now (word * 64 + k) (point_at audited.now.net.now.circuit.inputs (base + k))
        → IsAnswerAt Condition.WordAndOutputs audited.now (point_at audited.now.net.now.circuit.inputs (base + k)) None }
    ensures room { IsRoomOf audited.now room.new }
{
    let Audited { source, net, plan } = *audited;
    read_words(&trial.watch, net, plan, word, &mut room.lanes);
    let others = no_codewords(plan, room.lanes.as_slice());
    let outputs = outputs_part(plan, room.lanes.as_slice());
    others
        | wrong_outputs(
            &trial.reference,
            source,
            plan.version,
            base,
            word,
            outputs,
            &mut room.source_lanes,
            &mut room.free_lanes,
        )
}

/// The points, from the place `base` on, at which the bits at the latch inputs aren't seen to be the word of a state that the source
/// allows as the next one.
fn wrong_next(source: &SourceMeaning, plan: &Plan, base: usize, next: &[u64]) -> u64
    requires made { IsWellMade plan.now }
    requires sound { IsSoundSource (logic_of source.now) }
    requires inputs { inputs_of (logic_of source.now) ≤ 20 }
    requires states { listed_states plan.now ≡ states_of (logic_of source.now) }
    requires sized { length next.now ≡ plan.now.latches }
    requires whole { base % 64 ≡ 0 }
    ensures arrives { HoldsAtZeros result (λ k. let point = point_at (inputs_of (logic_of source.now)) (base + k) in
        ArrivesAt (logic_of source.now) plan.now point.state (bits_of (inputs_of (logic_of source.now)) point.input) (column k next.now)) }
{
    match source {
        SourceMeaning::Network(_) => other_words(plan, 0, next),
        SourceMeaning::Loose(_) => other_words(plan, 0, next),
        SourceMeaning::Machine(machine) => forbidden_next_states(machine, plan, base, next),
    }
}
