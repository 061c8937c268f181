//! The machine that a table is, where no two of its rows conflict.
ghost use Rattle.std.specs.Prelude.{◌≡◌, ◌<◌, ◌≤◌, length, slice_index, None, IfOk, IfErr, OnOk};
ghost use Rattle.tsc_net.specs.MachineView.{lines_of, machine_of};
ghost use Rattle.kiss_read.specs.Selections.{inputs_of, outputs_of, states_of_lines};
ghost use Rattle.kiss_read.specs.TableText.{machine_text};
ghost use Rattle.kiss_read.specs.Conflict.{first_clash};
ghost use Rattle.kiss_read.specs.Clashes.{rows_in, IsTable};
ghost use Rattle.kiss_read.specs.Refusal.{clash_refusal, table_refusal, IsRefusedBy};
ghost use Rattle.kiss_read.specs.Shaped.{AreShaped};

use crate::error::KissError;
use crate::resets::reset_state;
use crate::rows::{Heading, read_rows};
use crate::table::Table;
use std::alloc::Global;
use tsc_net::{Machine, NameTable};
use tsc_text::SectionLines;

impl Table {
    /// The number of a row's line.
    fn line(&self, place: usize) -> usize
        requires within { place < length self.now.rows }
        ensures line { result ≡ slice_index (lines_of self.now.rows) place }
    {
        self.rows.get(place).line
    }

    /// The machine of the table, where no two of its rows conflict.
    #[tactic(auto, using(crate::proofs::Consistent::are_consistent))]
    pub fn checked(self, alloc: Global) -> Result<Machine, KissError>
        requires fit { IsTable self }
        requires some_inputs { 1 ≤ self.heading.inputs }
        requires few_inputs { self.heading.inputs ≤ 64 }
        requires some_outputs { 1 ≤ self.heading.outputs }
        requires few_outputs { self.heading.outputs ≤ 64 }
        requires few_states { self.states ≤ 4096 }
        requires reset { self.heading.reset < self.states }
        ensures machine { IfOk result (λ machine. machine ≡ machine_of self.heading.inputs self.heading.outputs self.states self.heading.reset self.rows) }
        ensures sound { OnOk result (clash_refusal (lines_of self.rows) (first_clash (rows_in self)) ≡ None) }
        ensures refused { IfErr result (IsRefusedBy (clash_refusal (lines_of self.rows) (first_clash (rows_in self)))) }
    {
        let clash = match self.first_clash(alloc) {
            Ok(clash) => clash,
            Err(error) => return Err(KissError::Memory(error)),
        };
        match clash {
            Some(clash) => Err(KissError::Conflict {
                earlier: self.line(clash.earlier),
                later: self.line(clash.later),
            }),
            None => Ok(Machine::of(
                self.heading.inputs,
                self.heading.outputs,
                self.states,
                self.heading.reset,
                self.rows,
            )),
        }
    }
}

/// The machine of the rows of a section, which name these states, over so many inputs and outputs.
pub fn read_machine(
    alloc: Global,
    section: &SectionLines,
    states: &NameTable,
    inputs: usize,
    outputs: usize,
) -> Result<Machine, KissError>
    requires states { states.now ≡ states_of_lines section.now }
    requires few_states { length states.now ≤ 4096 }
    requires inputs { inputs_of section.now ≡ inputs }
    requires some_inputs { 1 ≤ inputs }
    requires few_inputs { inputs ≤ 64 }
    requires outputs { outputs_of section.now ≡ outputs }
    requires some_outputs { 1 ≤ outputs }
    requires few_outputs { outputs ≤ 64 }
    requires shaped { AreShaped inputs outputs section.now }
    ensures machine { IfOk result (λ machine. machine ≡ machine_text section.now) }
    ensures sound { OnOk result (table_refusal section.now ≡ None) }
    ensures refused { IfErr result (IsRefusedBy (table_refusal section.now)) }
{
    if states.len() == 0 {
        return Err(KissError::NoRows);
    }
    let reset = match reset_state(states, section) {
        Ok(reset) => reset,
        Err(error) => return Err(error),
    };
    let heading = Heading {
        inputs,
        outputs,
        reset,
    };
    let rows = match read_rows(alloc, heading, states, section) {
        Ok(rows) => rows,
        Err(error) => return Err(KissError::Memory(error)),
    };
    let table = Table {
        heading,
        states: states.len(),
        rows,
    };
    table.checked(alloc)
}
