//! Points: inputs and states at which a bench settles.
ghost use Rattle.std.specs.Prelude.{◌≡◌, ◌≢◌, ℕ, ◌+◌, ◌*◌, ◌<◌, ◌≤◌, ◌^◌, false, length, IfOk};
ghost use Rattle.tsc_bits.specs.Bits.{bit_worth, bits_of};
ghost use Rattle.fault_secure.specs.Circuit.{bit};
ghost use Rattle.lane_sim.specs.Points.{ArePointsOf, KeepsOthers, point_input, point_state, source_bit};

use std::alloc::{AllocError, Global};
use std::marker::Model;
use tsc_cover::bit_at;
use tsc_net::{Bits, Netlist};

/// 1,024 points of a netlist, each an input and a state; those that were never put are all zeros.
#[derive(Debug, Drop)]
pub struct Points {
    pub(crate) inputs: usize,
    pub(crate) latches: usize,
    pub(crate) words: Vec<u64>,
}

impl Model for Points {
    ghost use Rattle.std.specs.Prelude.{◌≡◌, ◌+◌, ◌*◌, length};
    ghost use Rattle.lane_sim.specs.Points.{PointsState};

    ghost Value = { PointsState };

    ghost view = { λ points. record { inputs = points.inputs; latches = points.latches; words = points.words.items } };

    ghost invariant = { λ points. length points.words.items ≡ (points.inputs + points.latches) * 16 };
}

impl Points {
    /// Points of the netlist, all zeros.
    ///
    /// # Errors
    ///
    /// Want of memory.
    pub fn new(alloc: Global, net: &Netlist) -> Result<Points, AllocError>
        ensures shape { IfOk result (ArePointsOf net.now.circuit) }
        ensures zeros { IfOk result (λ points. (p k : ℕ) → (point_input points p k ≡ false) × (point_state points p k ≡ false)) }
    {
        let inputs = net.inputs();
        let latches = net.latches();
        let words = vec![in alloc; 0; (inputs + latches) * 16]?;
        Ok(Points {
            inputs,
            latches,
            words,
        })
    }

    /// Puts a point at `place`: the bits of the inputs, and those of the latches, the first latch first. It takes no memory.
    pub fn put(&mut self, place: usize, state: &[bool], input: &Bits)
        requires place { place < 1024 }
        requires input { length input.now ≡ self.old.inputs }
        requires state { length state.now ≡ self.old.latches }
        ensures input { (k : ℕ) → point_input self.new place k ≡ bit input.now k }
        ensures state { (k : ℕ) → point_state self.new place k ≡ bit state.now k }
        ensures others { KeepsOthers place self.old self.new }
        ensures inputs { self.new.inputs ≡ self.old.inputs }
        ensures latches { self.new.latches ≡ self.old.latches }
    {
        put_point(&mut self.words, self.inputs, place, state, input.as_slice());
    }

    /// The same where there are few latches, with their bits as a number, the first latch most significant.
    pub fn put_numbered(&mut self, place: usize, state: u64, input: &Bits)
        requires place { place < 1024 }
        requires few { self.old.latches ≤ 64 }
        requires input { length input.now ≡ self.old.inputs }
        requires state { state < 2 ^ self.old.latches }
        ensures input { (k : ℕ) → point_input self.new place k ≡ bit input.now k }
        ensures state { (k : ℕ) → point_state self.new place k ≡ bit (bits_of self.old.latches state) k }
        ensures others { KeepsOthers place self.old self.new }
        ensures inputs { self.new.inputs ≡ self.old.inputs }
        ensures latches { self.new.latches ≡ self.old.latches }
    {
        put_numbered_point(
            &mut self.words,
            self.inputs,
            self.latches,
            place,
            state,
            input.as_slice(),
        );
    }

    /// The number of inputs.
    pub(crate) fn inputs(&self) -> usize
        ensures count { result ≡ self.now.inputs }
    {
        self.inputs
    }

    /// The lanes of the inputs and then of the latch outputs, sixteen words each.
    pub(crate) fn words(&self) -> &[u64]
        ensures words { result.now ≡ self.now.words }
        ensures sized { length result.now ≡ (self.now.inputs + self.now.latches) * 16 }
    {
        self.words.as_slice()
    }
}

/// Writes the bits of a point.
fn put_point(words: &mut [u64], inputs: usize, place: usize, state: &[bool], input: &[bool])
    requires place { place < 1024 }
    requires sized { length input.now ≡ inputs }
    requires room { length words.old ≡ (inputs + length state.now) * 16 }
    ensures input { (k : ℕ) → k < inputs → source_bit words.new k place ≡ bit input.now k }
    ensures state { (k : ℕ) → k < length state.now → source_bit words.new (inputs + k) place ≡ bit state.now k }
    ensures points { (net p : ℕ) → p < 1024 → p ≢ place → source_bit words.new net p ≡ source_bit words.old net p }
{
    put_bits(words, 0, place, input);
    put_bits(words, inputs, place, state);
}

/// Writes the bits of a point, where those of the state are a number.
fn put_numbered_point(
    words: &mut [u64],
    inputs: usize,
    latches: usize,
    place: usize,
    state: u64,
    input: &[bool],
)
    requires place { place < 1024 }
    requires few { latches ≤ 64 }
    requires sized { length input.now ≡ inputs }
    requires room { length words.old ≡ (inputs + latches) * 16 }
    ensures input { (k : ℕ) → k < inputs → source_bit words.new k place ≡ bit input.now k }
    ensures state { (k : ℕ) → k < latches → source_bit words.new (inputs + k) place ≡ bit (bits_of latches state) k }
    ensures points { (net p : ℕ) → p < 1024 → p ≢ place → source_bit words.new net p ≡ source_bit words.old net p }
{
    put_bits(words, 0, place, input);
    put_state(words, inputs, latches, place, state);
}

/// Writes the bits of some nets at a point, one net after another from the net `first` on.
fn put_bits(words: &mut [u64], first: usize, place: usize, bits: &[bool])
    requires place { place < 1024 }
    requires room { (first + length bits.now) * 16 ≤ length words.old }
    ensures put { (k : ℕ) → k < length bits.now → source_bit words.new (first + k) place ≡ bit bits.now k }
    ensures points { (net p : ℕ) → p < 1024 → p ≢ place → source_bit words.new net p ≡ source_bit words.old net p }
    ensures below { (net p : ℕ) → p < 1024 → net < first → source_bit words.new net p ≡ source_bit words.old net p }
{
    for (index, value) in bits.iter().enumerate() {
        put_bit(words, first + index, place, *value);
    }
}

/// Writes the bits of the state at a point; the first latch gives the net `first`.
fn put_state(words: &mut [u64], first: usize, latches: usize, place: usize, state: u64)
    requires place { place < 1024 }
    requires few { latches ≤ 64 }
    requires room { (first + latches) * 16 ≤ length words.old }
    ensures put { (k : ℕ) → k < latches → source_bit words.new (first + k) place ≡ bit (bits_of latches state) k }
    ensures points { (net p : ℕ) → p < 1024 → p ≢ place → source_bit words.new net p ≡ source_bit words.old net p }
    ensures below { (net p : ℕ) → p < 1024 → net < first → source_bit words.new net p ≡ source_bit words.old net p }
{
    for latch in 0..latches {
        let value = bit_at(state, latches - 1 - latch);
        put_bit(words, first + latch, place, value);
    }
}

/// Writes one bit: that of a net at a point.
fn put_bit(words: &mut [u64], net: usize, place: usize, value: bool)
    requires place { place < 1024 }
    requires room { net * 16 + 16 ≤ length words.old }
    ensures put { source_bit words.new net place ≡ value }
    ensures points { (other p : ℕ) → p < 1024 → p ≢ place → source_bit words.new other p ≡ source_bit words.old other p }
    ensures nets { (other p : ℕ) → p < 1024 → other ≢ net → source_bit words.new other p ≡ source_bit words.old other p }
{
    let at = net * 16 + place / 64;
    words[at] = with_bit(words[at], place % 64, value);
}

/// The word with this bit in place of the one that is worth `2^place`.
pub fn with_bit(word: u64, place: usize, value: bool) -> u64
    requires place { place < 64 }
    ensures put { bit_worth place result ≡ value }
    ensures others { (k : ℕ) → k < 64 → k ≢ place → bit_worth k result ≡ bit_worth k word }
{
    if value {
        word | (1 << place)
    } else {
        word & !(1 << place)
    }
}
