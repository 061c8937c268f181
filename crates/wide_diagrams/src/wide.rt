//! The rows of a netlist with its plan beside its source.
ghost use Rattle.std.specs.Prelude.{◌≡◌, ℕ, ◌+◌, ◌<◌, ◌≤◌, ◌++◌, Bool, List, length, map, All, IfOk, OnOk, IsErrOf};
ghost use Rattle.std.specs.List.{range_with_len};
ghost use Rattle.fault_secure.specs.CodePlan.{IsPlanOf, monitored as monitored_of};
ghost use Rattle.tsc_net.specs.PlanView.{net_numbers};
ghost use Rattle.diagrams.specs.Cofactors.{Function};
ghost use Rattle.diagrams.specs.Building.{constants};
ghost use Rattle.cover_diagrams.specs.Covering.{Grows, StandForPins};
ghost use Rattle.circuit_diagrams.specs.Stated.{AreValuations};
ghost use Rattle.wide_diagrams.specs.Stated.{checker_functions};
ghost use Rattle.wide_diagrams.specs.Wide.{difference_at, word_functions, functions_beside, stated_functions, NeedMoreRows, NeedAtMost, AreCompared, AreWideRows};
ghost use Rattle.circuit_diagrams.specs.Steps.{AreBuilt, AreAdded, AreShortOf};

use crate::checkers::checker_row;
use crate::differences::output_rows;
use circuit_diagrams::circuit_rows;
use diagrams::{BuildError, Diagrams};
use monitored_nets::monitored_nets;
use std::alloc::Global;
use tsc_net::{NetId, Netlist, Plan};

/// The rows that tell whether a netlist follows its source.
#[derive(Debug, Drop)]
pub struct WideRows {
    /// The row of where the rails of the plan's checker over the netlist's word differ.
    pub word: u32,
    /// For each output the row of where it differs from that of the source.
    pub outputs: Vec<u32>,
}

/// The rows of where the rails of a plan's checker differ, and where two functions do at each output's place.
fn compared_rows(
    alloc: Global,
    diagrams: &mut Diagrams,
    plan: &Plan,
    firsts: &[u32],
    word: &[u32],
) -> Result<WideRows, BuildError>
    requires sized { length word.now ≡ plan.now.outputs + length plan.now.checks + plan.now.latches }
    requires firsts { plan.now.outputs ≤ length firsts.now }
    requires inside { All (λ row. row < length diagrams.old.rows) firsts.now }
    requires word { All (λ row. row < length diagrams.old.rows) word.now }
    ensures grown { Grows diagrams.old diagrams.new }
    ensures inside { IfOk result (λ rows. rows.word < length diagrams.new.rows) }
    ensures outputs { IfOk result (λ rows. All (λ row. row < length diagrams.new.rows) rows.outputs.items) }
    ensures added { (fs ws : List Function) → StandForPins diagrams.old fs firsts.now → StandForPins diagrams.old ws word.now → AreAdded diagrams.old diagrams.new (checker_functions plan.now ws ++ map (difference_at fs ws) (range_with_len 0 plan.now.outputs)) }
    ensures built { (fs ws : List Function) → StandForPins diagrams.old fs firsts.now → StandForPins diagrams.old ws word.now → OnOk result (AreBuilt diagrams.new (checker_functions plan.now ws ++ map (difference_at fs ws) (range_with_len 0 plan.now.outputs))) }
    ensures rows { (fs ws : List Function) → StandForPins diagrams.old fs firsts.now → StandForPins diagrams.old ws word.now → IfOk result (λ rows. AreCompared diagrams.new plan.now fs ws rows.word rows.outputs.items) }
    ensures short { IsErrOf result BuildError.Spent → (fs ws : List Function) → StandForPins diagrams.old fs firsts.now → StandForPins diagrams.old ws word.now → AreShortOf diagrams.old diagrams.new (checker_functions plan.now ws ++ map (difference_at fs ws) (range_with_len 0 plan.now.outputs)) }
{
    let _rows = diagrams.len();
    match checker_row(alloc, diagrams, plan, word) {
        Ok(rails) => match output_rows(alloc, diagrams, plan.outputs, firsts, word) {
            Ok(outputs) => Ok(WideRows {
                word: rails,
                outputs,
            }),
            Err(e) => Err(e),
        },
        Err(e) => Err(e),
    }
}

/// The rows of a netlist with its plan beside its source, neither of which has latches: all functions that the two and the
/// plan's checker state are built, whatever the netlist's own checker is.
///
/// # Errors
///
/// `Spent` exactly where these functions and the two constants have more different cofactors than there can be rows; want of memory.
pub fn wide_rows(
    alloc: Global,
    diagrams: &mut Diagrams,
    source: &Netlist,
    net: &Netlist,
    plan: &Plan,
) -> Result<WideRows, BuildError>
    requires new { diagrams.old.rows ≡ constants diagrams.old.inputs }
    requires inputs { diagrams.old.inputs ≡ net.now.circuit.inputs }
    requires same_inputs { source.now.circuit.inputs ≡ net.now.circuit.inputs }
    requires no_latch { length source.now.circuit.latches ≡ 0 }
    requires latches { length net.now.circuit.latches ≡ 0 }
    requires plan { IsPlanOf net.now.circuit plan.now }
    requires outputs { length source.now.circuit.outputs ≡ plan.now.outputs }
    ensures grown { Grows diagrams.old diagrams.new }
    ensures inside { IfOk result (λ rows. rows.word < length diagrams.new.rows) }
    ensures outputs { IfOk result (λ rows. All (λ row. row < length diagrams.new.rows) rows.outputs.items) }
    ensures rows { (vs v : List Bool → List Bool) → AreValuations source.now.circuit vs → AreValuations net.now.circuit v → IfOk result (λ rows. AreWideRows diagrams.new source.now.circuit vs net.now.circuit v plan.now rows.word rows.outputs.items) }
    ensures few { OnOk result (NeedAtMost diagrams.old.room source.now.circuit net.now.circuit plan.now) }
    ensures many { IsErrOf result BuildError.Spent → NeedMoreRows diagrams.old.room source.now.circuit net.now.circuit plan.now }
{
    // What the diagrams, the netlists and the plan keep is known from here on.
    let _rows = diagrams.len();
    let _source = source.nets();
    let _nets = net.nets();
    let _states = plan.states.len();
    match monitored_nets(alloc, net, plan) {
        Ok(monitored) => stated_rows(alloc, diagrams, source, net, plan, monitored.as_slice()),
        Err(e) => Err(BuildError::Memory(e)),
    }
}

/// The rows of a netlist beside its source, over its monitored nets.
fn stated_rows(
    alloc: Global,
    diagrams: &mut Diagrams,
    source: &Netlist,
    net: &Netlist,
    plan: &Plan,
    monitored: &[NetId],
) -> Result<WideRows, BuildError>
    requires inputs { diagrams.old.inputs ≡ net.now.circuit.inputs }
    requires same_inputs { source.now.circuit.inputs ≡ net.now.circuit.inputs }
    requires no_latch { length source.now.circuit.latches ≡ 0 }
    requires latches { length net.now.circuit.latches ≡ 0 }
    requires plan { IsPlanOf net.now.circuit plan.now }
    requires outputs { length source.now.circuit.outputs ≡ plan.now.outputs }
    requires word { net_numbers monitored.now ≡ monitored_of net.now.circuit plan.now }
    ensures grown { Grows diagrams.old diagrams.new }
    ensures inside { IfOk result (λ rows. rows.word < length diagrams.new.rows) }
    ensures outputs { IfOk result (λ rows. All (λ row. row < length diagrams.new.rows) rows.outputs.items) }
    ensures added { (vs v : List Bool → List Bool) → AreValuations source.now.circuit vs → AreValuations net.now.circuit v → AreAdded diagrams.old diagrams.new (stated_functions source.now.circuit vs net.now.circuit v plan.now) }
    ensures built { (vs v : List Bool → List Bool) → AreValuations source.now.circuit vs → AreValuations net.now.circuit v → OnOk result (AreBuilt diagrams.new (stated_functions source.now.circuit vs net.now.circuit v plan.now)) }
    ensures rows { (vs v : List Bool → List Bool) → AreValuations source.now.circuit vs → AreValuations net.now.circuit v → IfOk result (λ rows. AreWideRows diagrams.new source.now.circuit vs net.now.circuit v plan.now rows.word rows.outputs.items) }
    ensures short { IsErrOf result BuildError.Spent → (vs v : List Bool → List Bool) → AreValuations source.now.circuit vs → AreValuations net.now.circuit v → AreShortOf diagrams.old diagrams.new (stated_functions source.now.circuit vs net.now.circuit v plan.now) }
{
    // What the diagrams and the source keep is known from here on.
    let _rows = diagrams.len();
    let _source = source.nets();
    let shown = source.outputs();
    match circuit_rows(alloc, diagrams, source, shown) {
        Ok(firsts) => beside_rows(alloc, diagrams, net, plan, monitored, &firsts),
        Err(e) => Err(e),
    }
}

/// The rows of a netlist beside those of the outputs of its source.
fn beside_rows(
    alloc: Global,
    diagrams: &mut Diagrams,
    net: &Netlist,
    plan: &Plan,
    monitored: &[NetId],
    firsts: &[u32],
) -> Result<WideRows, BuildError>
    requires inputs { diagrams.old.inputs ≡ net.now.circuit.inputs }
    requires latches { length net.now.circuit.latches ≡ 0 }
    requires plan { IsPlanOf net.now.circuit plan.now }
    requires word { net_numbers monitored.now ≡ monitored_of net.now.circuit plan.now }
    requires firsts { plan.now.outputs ≤ length firsts.now }
    requires inside { All (λ row. row < length diagrams.old.rows) firsts.now }
    ensures grown { Grows diagrams.old diagrams.new }
    ensures inside { IfOk result (λ rows. rows.word < length diagrams.new.rows) }
    ensures outputs { IfOk result (λ rows. All (λ row. row < length diagrams.new.rows) rows.outputs.items) }
    ensures added { (fs : List Function) (v : List Bool → List Bool) → AreValuations net.now.circuit v → StandForPins diagrams.old fs firsts.now → AreAdded diagrams.old diagrams.new (functions_beside fs net.now.circuit v plan.now) }
    ensures built { (fs : List Function) (v : List Bool → List Bool) → AreValuations net.now.circuit v → StandForPins diagrams.old fs firsts.now → OnOk result (AreBuilt diagrams.new (functions_beside fs net.now.circuit v plan.now)) }
    ensures rows { (fs : List Function) (v : List Bool → List Bool) → AreValuations net.now.circuit v → StandForPins diagrams.old fs firsts.now → IfOk result (λ rows. AreCompared diagrams.new plan.now fs (word_functions net.now.circuit v plan.now) rows.word rows.outputs.items) }
    ensures short { IsErrOf result BuildError.Spent → (fs : List Function) (v : List Bool → List Bool) → AreValuations net.now.circuit v → StandForPins diagrams.old fs firsts.now → AreShortOf diagrams.old diagrams.new (functions_beside fs net.now.circuit v plan.now) }
{
    // What the diagrams and the netlist keep is known from here on.
    let _rows = diagrams.len();
    let _nets = net.nets();
    match circuit_rows(alloc, diagrams, net, monitored) {
        Ok(word) => compared_rows(alloc, diagrams, plan, firsts, &word),
        Err(e) => Err(e),
    }
}
