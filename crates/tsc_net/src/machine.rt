//! Machines: completed state tables, whose rows are numbers.
ghost use Rattle.std.specs.Prelude.{◌≡◌, ℕ, ◌<◌, ◌≤◌, ◌^◌, ◌&&◌, ◌↔◌, All, IsTrue, find};
ghost use Rattle.std.specs.List.{list_any};
ghost use Rattle.std.specs.Option.{option_copied};
ghost use Rattle.tsc_bits.specs.Bits.{bits_of, bit_worth};
ghost use Rattle.fault_secure.specs.Logic.{States, AllowsNext, AllowsOutputs, IsStateTable, answering, next_of_rows, outputs_of_rows, starts_at};
ghost use Rattle.tsc_net.specs.Overlap.{AreConsistent};
ghost use Rattle.tsc_net.specs.MachineView.{lines_of, machine_of, row_applies, transitions_of, IsMachineRow};

use std::marker::Model;
use tsc_cover::Row01;
use tsc_io::Items;

/// A row of a state table after completion. Of n inputs or outputs the first is the bit that is worth `2^(n-1)`.
#[derive(Clone, Copy, Debug, PartialEq, Eq)]
pub struct MachineRow {
    /// What it asks of the inputs.
    pub input: Row01,
    /// The state at which it answers; at every state where there is none.
    pub from: Option<u32>,
    /// The next state, which is the reset state where the row names none.
    pub next: u32,
    /// Whether the row names its next state.
    pub named: bool,
    /// The outputs; one that the row doesn't specify is 0.
    pub outputs: u64,
    /// The outputs that the row specifies.
    pub care: u64,
    /// The number of its line, from 1.
    pub line: usize,
}

impl MachineRow {
    /// Whether the row starts at a state: it names that one, or every state.
    pub fn starts_at(&self, state: u32) -> bool
        ensures starts { result ≡ starts_at self.now.from state }
    {
        match self.from {
            None => true,
            Some(from) => from == state,
        }
    }
}

/// A list of rows of a state table.
pub type MachineRows = Items<MachineRow>;

/// What a machine answers.
#[derive(Clone, Copy, Debug, PartialEq, Eq)]
pub struct Answer {
    /// The outputs, the first worth the most.
    pub outputs: u64,
    /// The next state.
    pub next: u32,
}

/// A machine: a completed state table in which no two rows that share a state and an input differ.
#[derive(Debug, Drop)]
pub struct Machine {
    inputs: usize,
    outputs: usize,
    states: usize,
    reset: u32,
    rows: MachineRows,
}

impl Model for Machine {
    ghost use Rattle.tsc_net.specs.MachineView.{MachineOf, machine_of, IsMachine};

    ghost Value = { MachineOf };

    ghost view = { λ m. machine_of m.inputs m.outputs m.states m.reset m.rows };

    ghost invariant = { λ m. IsMachine m.inputs m.outputs m.states m.reset m.rows };
}

impl Machine {
    /// The machine with these rows, from 1 to 64 inputs, from 1 to 64 outputs, and at most 4,096 states. The reset state is one of them, and
    /// rows that overlap agree. It takes no memory.
    pub fn of(
        inputs: usize,
        outputs: usize,
        states: usize,
        reset: u32,
        rows: MachineRows,
    ) -> Machine
        requires some_inputs { 1 ≤ inputs }
        requires few_inputs { inputs ≤ 64 }
        requires some_outputs { 1 ≤ outputs }
        requires few_outputs { outputs ≤ 64 }
        requires few_states { states ≤ 4096 }
        requires reset { reset < states }
        requires rows { All (IsMachineRow inputs outputs states reset) rows }
        requires consistent { AreConsistent (transitions_of inputs outputs rows) }
        ensures machine { result ≡ machine_of inputs outputs states reset rows }
    {
        Machine {
            inputs,
            outputs,
            states,
            reset,
            rows,
        }
    }

    /// The rows, in text order.
    pub fn rows(&self) -> &[MachineRow]
        ensures rows { transitions_of self.now.table.inputs self.now.table.outputs result.now ≡ self.now.table.rows }
        ensures lines { lines_of result.now ≡ self.now.lines }
        ensures fit { All (IsMachineRow self.now.table.inputs self.now.table.outputs self.now.table.states self.now.table.reset) result.now }
    {
        self.rows.as_slice()
    }

    /// The number of inputs, from 1 to 64.
    pub fn inputs(&self) -> usize
        ensures inputs { result ≡ self.now.table.inputs }
        ensures some { 1 ≤ result }
        ensures few { result ≤ 64 }
    {
        self.inputs
    }

    /// The number of outputs, from 1 to 64.
    pub fn outputs(&self) -> usize
        ensures outputs { result ≡ self.now.table.outputs }
        ensures some { 1 ≤ result }
        ensures few { result ≤ 64 }
    {
        self.outputs
    }

    /// The number of states, from 1 to 4,096. The machine is a state table.
    pub fn states(&self) -> usize
        ensures states { result ≡ self.now.table.states }
        ensures few { result ≤ 4096 }
        ensures sound { IsStateTable self.now.table }
    {
        self.states
    }

    /// The reset state.
    pub fn reset(&self) -> u32
        ensures reset { result ≡ self.now.table.reset }
        ensures is_state { result < self.now.table.states }
    {
        self.reset
    }

    /// The chosen answer at a state and input: that of any row that answers there, and the reset state with all outputs 0
    /// where none does. It takes no memory.
    pub fn answer(&self, state: u32, input: u64) -> Answer
        requires state { state < self.now.table.states }
        ensures outputs { bits_of self.now.table.outputs result.outputs ≡ outputs_of_rows self.now.table (answering self.now.table state (bits_of self.now.table.inputs input)) }
        ensures next { result.next ≡ next_of_rows self.now.table (answering self.now.table state (bits_of self.now.table.inputs input)) }
        ensures narrow { result.outputs < 2 ^ self.now.table.outputs }
        ensures is_state { result.next < self.now.table.states }
    {
        match first_answering(self.rows.as_slice(), state, input) {
            Some(row) => Answer {
                outputs: row.outputs,
                next: row.next,
            },
            None => Answer {
                outputs: 0,
                next: self.reset,
            },
        }
    }

    /// Whether these outputs and this next state are allowed at a state and input: each output is the chosen one or is
    /// specified by no row that answers, and the next state is the chosen one or no row that answers names one. It takes no
    /// memory.
    pub fn allows(&self, state: u32, input: u64, outputs: u64, next: u32) -> bool
        requires state { state < self.now.table.states }
        requires next { next < self.now.table.states }
        ensures allowed { IsTrue result ↔ (AllowsOutputs (States self.now.table) 2 state (bits_of self.now.table.inputs input) (bits_of self.now.table.outputs outputs) × AllowsNext (States self.now.table) 2 state (bits_of self.now.table.inputs input) next) }
    {
        self.allows_outputs(state, input, outputs) && self.allows_next(state, input, next)
    }

    /// Whether each output is the chosen one or is specified by no row that answers.
    fn allows_outputs(&self, state: u32, input: u64, outputs: u64) -> bool
        requires state { state < self.now.table.states }
        ensures allowed { IsTrue result ↔ AllowsOutputs (States self.now.table) 2 state (bits_of self.now.table.inputs input) (bits_of self.now.table.outputs outputs) }
    {
        let answer = self.answer(state, input);
        (outputs ^ answer.outputs) & specified(self.rows.as_slice(), state, input) == 0
    }

    /// Whether the next state is the chosen one, or no row that answers names one.
    fn allows_next(&self, state: u32, input: u64, next: u32) -> bool
        requires state { state < self.now.table.states }
        requires next { next < self.now.table.states }
        ensures allowed { IsTrue result ↔ AllowsNext (States self.now.table) 2 state (bits_of self.now.table.inputs input) next }
    {
        let answer = self.answer(state, input);
        next == answer.next || !names_next(self.rows.as_slice(), state, input)
    }
}

/// Whether the row answers at this state and input.
fn applies(row: &MachineRow, state: u32, input: u64) -> bool
    ensures applies { result ≡ row_applies state input row.now }
{
    row.starts_at(state) && (input ^ row.input.value) & row.input.care == 0
}

/// The first row that answers at this state and input.
fn first_answering(rows: &[MachineRow], state: u32, input: u64) -> Option<&MachineRow>
    ensures first { option_copied result ≡ find (row_applies state input) rows.now }
{
    rows.iter().find(|row| applies(row, state, input))
}

/// The outputs that some row which answers at this state and input specifies.
fn specified(rows: &[MachineRow], state: u32, input: u64) -> u64
    ensures specified { (k : ℕ) → bit_worth k result ≡ list_any (λ row. row_applies state input row && bit_worth k row.care) rows.now }
{
    let mut care = 0;
    for row in rows {
        care |= specified_by(row, state, input);
    }
    care
}

/// The outputs that the row specifies, none where it doesn't answer at this state and input.
fn specified_by(row: &MachineRow, state: u32, input: u64) -> u64
    ensures specified { (k : ℕ) → bit_worth k result ≡ (row_applies state input row.now && bit_worth k row.now.care) }
{
    if applies(row, state, input) {
        row.care
    } else {
        0
    }
}

/// Whether some row which answers at this state and input names its next state.
fn names_next(rows: &[MachineRow], state: u32, input: u64) -> bool
    ensures names { result ≡ list_any (λ row. row_applies state input row && row.named) rows.now }
{
    rows.iter()
        .any(|row| applies(row, state, input) && row.named)
}
