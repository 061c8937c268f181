//! Trying the values of the monitored nets.
ghost use Rattle.std.specs.Prelude.{◌≡◌, ℕ, ◌+◌, ◌<◌, ◌≤◌, ◌^◌, not, false, length, map, All, MatchOption, IfOk};
ghost use Rattle.tsc_bits.specs.Bits.{bit_worth, bits_of};
ghost use Rattle.fault_secure.specs.Circuit.{nets, bit};
ghost use Rattle.fault_secure.specs.CodePlan.{monitored, IsPlanOf};
ghost use Rattle.tsc_net.specs.PlanView.{net_numbers};
ghost use Rattle.checker_audit.specs.Misjudged.{monitored_count, distinct_monitored, IsTried, AreJudgedBelow, IsFirstTriedWrong};
ghost use Rattle.code_lanes.specs.Lanes.{column};
ghost use Rattle.checker_audit.specs.Lanes.{ShowsValues, AreJudgedWithin, IsFirstWithin, IsFirstMarked};
ghost use Rattle.checker_audit.specs.Program.{IsProgram};

use code_lanes::{negated, no_codewords};
use lane_sim::width_of;
use node_lanes::{put_words, settle_words};
use std::alloc::{AllocError, Global};
use tsc_cover::bit_at;
use tsc_net::{NetId, Netlist, Plan};

/// The first value of the different monitored nets, the first net most significant, that the checker misjudges, if there is one.
/// `word` has the monitored nets, `distinct` the different ones among them, `places` the checker's nodes in their order.
pub fn first_misjudged(
    alloc: Global,
    net: &Netlist,
    plan: &Plan,
    word: &[NetId],
    distinct: &[NetId],
    places: &[usize],
) -> Result<Option<u64>, AllocError>
    requires plan { IsPlanOf net.now.circuit plan.now }
    requires word { net_numbers word.now ≡ monitored net.now.circuit plan.now }
    requires distinct { net_numbers distinct.now ≡ distinct_monitored net.now.circuit plan.now }
    requires few { length distinct.now ≤ 20 }
    requires program { IsProgram net.now.circuit plan.now places.now }
    ensures answer { IfOk result (λ found. MatchOption found (AreJudgedBelow net.now.circuit plan.now (2 ^ monitored_count net.now.circuit plan.now)) (λ value. IsFirstTriedWrong net.now.circuit plan.now value)) }
{
    let mut words = vec![in alloc; 0u64; net.nets()]?;
    let mut lanes = vec![in alloc; 0u64; word.len()]?;
    Ok(first_wrong(net, plan, word, distinct, places, &mut words, &mut lanes))
}

/// The first value that is misjudged. `words` has one word per net, `lanes` one per monitored net.
fn first_wrong(
    net: &Netlist,
    plan: &Plan,
    word: &[NetId],
    distinct: &[NetId],
    places: &[usize],
    words: &mut [u64],
    lanes: &mut [u64],
) -> Option<u64>
    requires plan { IsPlanOf net.now.circuit plan.now }
    requires word { net_numbers word.now ≡ monitored net.now.circuit plan.now }
    requires distinct { net_numbers distinct.now ≡ distinct_monitored net.now.circuit plan.now }
    requires few { length distinct.now ≤ 20 }
    requires program { IsProgram net.now.circuit plan.now places.now }
    requires sized { length words.old ≡ nets net.now.circuit }
    requires lanes { length lanes.old ≡ length word.now }
    ensures answer { MatchOption result (AreJudgedBelow net.now.circuit plan.now (2 ^ monitored_count net.now.circuit plan.now)) (λ value. IsFirstTriedWrong net.now.circuit plan.now value) }
{
    // What the netlist keeps is known from here on.
    let _nets = net.nets();
    let most = width_of(distinct.len()) as u64;
    for block in 0..(most + 63) / 64 {
        let base = block * 64;
        put_words(words, distinct, base);
        settle_words(net, places, words);
        let count = (most - base).min(64);
        if let Some(value) = first_of_values(net, plan, word, words, base, count, lanes) {
            return Some(value);
        }
    }
    None
}

/// The first of so many values from `base` on that is misjudged.
fn first_of_values(
    net: &Netlist,
    plan: &Plan,
    word: &[NetId],
    words: &[u64],
    base: u64,
    count: u64,
    lanes: &mut [u64],
) -> Option<u64>
    requires plan { IsPlanOf net.now.circuit plan.now }
    requires word { net_numbers word.now ≡ monitored net.now.circuit plan.now }
    requires sized { length words.now ≡ nets net.now.circuit }
    requires lanes { length lanes.old ≡ length word.now }
    requires low { base < 2 ^ 63 }
    requires few { count ≤ 64 }
    requires shows { ShowsValues net.now.circuit plan.now base words.now }
    ensures answer { MatchOption result (AreJudgedWithin net.now.circuit plan.now base count) (λ value. IsFirstWithin net.now.circuit plan.now base count value) }
{
    let wrong = misjudged(net, plan, word, words, lanes);
    match first_marked(wrong, count) {
        None => None,
        Some(at) => Some(base + at),
    }
}

/// The points at which the rails don't differ exactly where the word is a codeword.
fn misjudged(net: &Netlist, plan: &Plan, word: &[NetId], words: &[u64], lanes: &mut [u64]) -> u64
    requires plan { IsPlanOf net.now.circuit plan.now }
    requires word { net_numbers word.now ≡ monitored net.now.circuit plan.now }
    requires sized { length words.now ≡ nets net.now.circuit }
    requires lanes { length lanes.old ≡ length word.now }
    ensures tried { (base p : ℕ) → p < 64 → ShowsValues net.now.circuit plan.now base words.now → IsTried net.now.circuit plan.now (bits_of (monitored_count net.now.circuit plan.now) (base + p)) (not (bit_worth p result)) }
{
    // What the netlist keeps is known from here on.
    let _nets = net.nets();
    gather(words, word, lanes);
    let differ = words[plan.rail1.number as usize] ^ words[plan.rail2.number as usize];
    no_codewords(plan, lanes) ^ negated(differ)
}

/// Reads the words of some nets.
fn gather(words: &[u64], word: &[NetId], lanes: &mut [u64])
    requires sized { length lanes.old ≡ length word.now }
    requires within { All (λ net. net.number < length words.now) word.now }
    ensures lanes { (p : ℕ) → column p lanes.new ≡ map (bit (column p words.now)) (net_numbers word.now) }
{
    for (place, net) in word.iter().enumerate() {
        lanes[place] = words[net.number as usize];
    }
}

/// The first of so many points at which a word has a 1.
fn first_marked(word: u64, count: u64) -> Option<u64>
    requires few { count ≤ 64 }
    ensures first { MatchOption result ((p : ℕ) → p < count → bit_worth p word ≡ false) (IsFirstMarked word count) }
{
    if word == 0 {
        return None;
    }
    for at in 0..count {
        if bit_at(word, at as usize) {
            return Some(at);
        }
    }
    None
}
