//! What is counted of a machine over all its points.
ghost use Rattle.std.specs.Prelude.{◌≡◌, ◌^◌, ◌<◌, ◌≤◌, ◌==◌, cond};
ghost use Rattle.tsc_bits.specs.Bits.{bits_of};
ghost use Rattle.tsc_bits.specs.Counting.{ones};
ghost use Rattle.machine_maker.specs.Counts.{ones_at, output_ones, points, resets, resets_at, sum_below};

use tsc_net::{Answer, Machine};

/// What is counted of a machine over points, a state and an input each.
#[derive(Clone, Copy, Debug, PartialEq, Eq)]
pub struct Counts {
    /// How many output bits are 1.
    pub ones: u64,
    /// At how many points the next state is the reset state.
    pub resets: u64,
}

/// What is counted of a machine over all its points: its chosen outputs that are 1, and how often its chosen next state is the reset
/// state.
pub fn counts_of(machine: &Machine) -> Counts
    requires few { points machine.now.table ≤ 1048576 }
    ensures ones { result.ones ≡ output_ones machine.now.table }
    ensures resets { result.resets ≡ resets machine.now.table }
{
    let inputs = input_count(machine);
    let mut counts = Counts { ones: 0, resets: 0 };
    for state in 0..machine.states() {
        let here = counts_at(machine, state as u32, inputs);
        counts = Counts {
            ones: counts.ones + here.ones,
            resets: counts.resets + here.resets,
        };
    }
    counts
}

/// How many inputs there are at a state.
fn input_count(machine: &Machine) -> u64
    requires few { points machine.now.table ≤ 1048576 }
    ensures count { result ≡ 2 ^ machine.now.table.inputs }
    ensures few { result ≤ 1048576 }
{
    // What the machine keeps is known from here on.
    let _reset = machine.reset();
    1 << machine.inputs()
}

/// What is counted at a state over the first inputs, so many.
fn counts_at(machine: &Machine, state: u32, inputs: u64) -> Counts
    requires state { state < machine.now.table.states }
    requires few { inputs ≤ 1048576 }
    ensures ones { result.ones ≡ sum_below (ones_at machine.now.table state) inputs }
    ensures resets { result.resets ≡ sum_below (resets_at machine.now.table state) inputs }
    ensures few_ones { result.ones ≤ 67108864 }
    ensures few_resets { result.resets ≤ 1048576 }
{
    let mut counts = Counts { ones: 0, resets: 0 };
    for input in 0..inputs {
        let answer = machine.answer(state, input);
        counts = Counts {
            ones: counts.ones + ones(machine, answer),
            resets: counts.resets + resets(machine, answer),
        };
    }
    counts
}

/// How many outputs of an answer are 1.
fn ones(machine: &Machine, answer: Answer) -> u64
    requires narrow { answer.outputs < 2 ^ machine.now.table.outputs }
    ensures ones { result ≡ ones (bits_of machine.now.table.outputs answer.outputs) }
    ensures few { result ≤ 64 }
{
    // What the machine keeps is known from here on.
    let _outputs = machine.outputs();
    u64::from(answer.outputs.count_ones())
}

/// 1 where an answer's next state is the reset state, else 0.
fn resets(machine: &Machine, answer: Answer) -> u64
    ensures one { result ≡ cond (answer.next == machine.now.table.reset) 1 0 }
    ensures few { result ≤ 1 }
{
    if answer.next == machine.reset() { 1 } else { 0 }
}
