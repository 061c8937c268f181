//! Whether a word is a codeword.
ghost use Rattle.std.specs.Prelude.{◌≡◌, ◌↔◌, ◌+◌, length, IsTrue};
ghost use Rattle.fault_secure.specs.CodePlan.{IsCodeword};
ghost use Rattle.code_lanes.specs.Lanes.{column};

use crate::lanes::Lanes;
use code_lanes::no_codewords;
use lane_sim::word_of;
use tsc_cover::bit_at;
use tsc_net::Plan;

/// Whether the word is a codeword of the plan. `lanes` has room for one lane per place of the word, and is written over.
pub(crate) fn is_codeword(plan: &Plan, word: &[bool], lanes: &mut Lanes) -> bool
    requires sized { length word.now ≡ (plan.now.outputs + length plan.now.checks) + plan.now.latches }
    requires room { length lanes.old ≡ length word.now }
    ensures codeword { IsTrue result ↔ IsCodeword plan.now word.now }
    ensures room { length lanes.new ≡ length word.now }
{
    put_lanes(word, lanes);
    !bit_at(no_codewords(plan, lanes.as_slice()), 0)
}

/// Writes the lanes that have the bits of a word at each of 64 points.
fn put_lanes(word: &[bool], lanes: &mut Lanes)
    requires room { length lanes.old ≡ length word.now }
    ensures column { column 0 lanes.new ≡ word.now }
    ensures room { length lanes.new ≡ length word.now }
{
    for place in 0..word.len() {
        lanes.replace(place, word_of(word[place]));
    }
}
