//! What a machine allows at 64 points, one after another: an output is a lane, and a row the points at which it answers.
ghost use Rattle.std.specs.Prelude.{◌≡◌, ◌+◌, ◌/◌, ◌%◌, ◌≤◌, ◌^◌, true, length};
ghost use Rattle.tsc_bits.specs.Bits.{bit_worth, bits_of};
ghost use Rattle.fault_secure.specs.Logic.{States, AllowsOutputs};
ghost use Rattle.code_lanes.specs.Lanes.{column};
ghost use Rattle.behaviour_audit.specs.Lanes.{Fits, HoldsAtZeros, asked_under};

use crate::lanes::misfits;
use crate::row_lanes::answered_by;
use code_lanes::negated;
use tsc_net::Machine;

/// The points, of the 64 from the place `base` on, at which the outputs aren't those that a machine allows under a plan of this version.
pub(crate) fn wrong_answers(machine: &Machine, version: u8, base: usize, outputs: &[u64]) -> u64
    requires few { machine.now.table.inputs ≤ 20 }
    requires whole { base % 64 ≡ 0 }
    requires sized { length outputs.now ≡ machine.now.table.outputs }
    ensures allowed { HoldsAtZeros result (λ k. AllowsOutputs (States machine.now.table) version ((base + k) / 2 ^ machine.now.table.inputs) (bits_of machine.now.table.inputs (base + k)) (column k outputs.now)) }
{
    // A machine is a state table with at most 64 outputs.
    let _states = machine.states();
    let _outputs = machine.outputs();
    let mut wrong = 0;
    let mut answered = 0;
    for row in machine.rows() {
        let points = answered_by(row, machine.inputs(), base);
        wrong |= misfits_at(points, outputs, asked(version, row.care), row.outputs);
        answered |= points;
    }
    wrong | misfits_at(negated(answered), outputs, asked(version, 0), 0)
}

/// The outputs that are asked for: those that are specified, under a plan of version 1 all.
fn asked(version: u8, specified: u64) -> u64
    ensures asked { result ≡ asked_under version specified }
{
    if version == 2 { specified } else { u64::MAX }
}

/// The points, of those that are given, at which some lane that is asked for has another bit than the number that is wanted.
fn misfits_at(points: u64, lanes: &[u64], asked: u64, wanted: u64) -> u64
    requires few { length lanes.now ≤ 64 }
    ensures fits { HoldsAtZeros result (λ k. bit_worth k points ≡ true → Fits (length lanes.now) (column k lanes.now) asked wanted) }
{
    if points == 0 {
        0
    } else {
        points & misfits(lanes, asked, wanted)
    }
}
