//! Tables of what steps show and leave, from which steps are looked up.
ghost use Rattle.std.specs.Prelude.{◌≡◌, ◌*◌, ◌<◌, ◌≤◌, ◌^◌, true, length, All, IfOk, slice_index_or};
ghost use Rattle.fault_sim.specs.Sim.{IsStill, is_fault};
ghost use Rattle.sim_text.specs.Tables.{AreTablesOf, AreTheFaulty, HaveRoom, table_of};

use fault_sim::{Outcome, OutcomeList, Sim, blank_outcomes};
use std::alloc::{AllocError, Global};
use tsc_net::Bits;

/// What steps show and leave.
#[derive(Drop)]
pub(crate) struct Tables {
    /// What they do without the fault.
    pub right: OutcomeList,
    /// What they do with it; where there is no fault this table isn't used.
    pub faulty: OutcomeList,
}

/// Tables with room for so many steps, to be written over.
///
/// # Errors
///
/// Want of memory.
pub(crate) fn blank_tables(alloc: Global, sim: &Sim, count: usize) -> Result<Tables, AllocError>
    ensures room { IfOk result (HaveRoom sim.now count) }
{
    let right = blank_outcomes(alloc, count)?;
    let faulty = blank_faulty(alloc, sim, count)?;
    Ok(Tables { right, faulty })
}

/// A table with room for so many steps where there is a fault, else for none.
fn blank_faulty(alloc: Global, sim: &Sim, count: usize) -> Result<OutcomeList, AllocError>
    ensures room { IfOk result (λ list. is_fault sim.now.fault ≡ true → count ≤ length list) }
{
    if sim.has_fault() {
        blank_outcomes(alloc, count)
    } else {
        Ok(OutcomeList::new(alloc))
    }
}

/// Writes the tables of steps from the first states over the inputs. It takes no memory.
pub(crate) fn put_tables(sim: &mut Sim, states: usize, inputs: &[Bits], tables: &mut Tables)
    requires few { length sim.old.bench.circuit.latches ≤ 64 }
    requires inputs { All (λ input. length input ≡ sim.old.bench.circuit.inputs) inputs.now }
    requires states { states ≤ 2 ^ length sim.old.bench.circuit.latches }
    requires room { HaveRoom sim.old (states * length inputs.now) tables.old }
    ensures tables { AreTablesOf sim.old states inputs.now tables.new }
    ensures still { IsStill sim.old sim.new }
{
    sim.outcomes_into(false, states, inputs, &mut tables.right);
    put_faulty(sim, states, inputs, &mut tables.faulty);
}

/// Writes the table of steps with the fault, if there is one.
fn put_faulty(sim: &mut Sim, states: usize, inputs: &[Bits], faulty: &mut OutcomeList)
    requires few { length sim.old.bench.circuit.latches ≤ 64 }
    requires inputs { All (λ input. length input ≡ sim.old.bench.circuit.inputs) inputs.now }
    requires states { states ≤ 2 ^ length sim.old.bench.circuit.latches }
    requires room { is_fault sim.old.fault ≡ true → states * length inputs.now ≤ length faulty.old }
    ensures table { AreTheFaulty sim.old states inputs.now faulty.new }
    ensures still { IsStill sim.old sim.new }
{
    if sim.has_fault() {
        sim.outcomes_into(true, states, inputs, faulty);
    }
}

/// What the step with this number shows and leaves, which stands at a place of its table.
pub(crate) fn entry(sim: &Sim, tables: &Tables, step: u64, place: usize) -> Outcome
    requires place { place < length (table_of sim.now step tables.now) }
    ensures entry { result ≡ slice_index_or (table_of sim.now step tables.now) place result }
{
    *table_of(sim, tables, step).get(place)
}

/// The table of the step with this number.
fn table_of<'a>(sim: &Sim, tables: &'a Tables, step: u64) -> &'a OutcomeList
    ensures table { result.now ≡ table_of sim.now step tables.now }
{
    if sim.has_fault() && sim.has_step(step) {
        &tables.faulty
    } else {
        &tables.right
    }
}
