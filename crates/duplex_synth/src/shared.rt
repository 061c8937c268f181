//! One copy of the covers that outputs depend on, added to parts, and over it the check of each group of outputs.
ghost use Rattle.std.specs.Prelude.{◌≡◌, ◌+◌, ◌<◌, ◌^◌, map, length, All, IfOk, OnOk};
ghost use Rattle.fault_secure.specs.Circuit.{nets};
ghost use Rattle.fault_secure.specs.CodePlan.{concat_places};
ghost use Rattle.tsc_net.specs.PartsView.{text_of, texts_of, IsName};
ghost use Rattle.parity_code.specs.ParityFunction.{outputs_at};
ghost use Rattle.net_cones.specs.Cones.{IsCone};
ghost use Rattle.parity_code.specs.Held.{HoldsInputs, PartsGrow};
ghost use Rattle.parity_code.specs.Predictors.{with_parity, last_name};
ghost use Rattle.parity_code.specs.PredictorSteps.{name_at, HasText};
ghost use Rattle.parity_code.specs.SharedParts.{with_group_checks, group_check_texts, with_shared, shared_texts};

use parity_code::{Grouping, add_nodes, add_parity, copy_names, output_names};
use std::alloc::{AllocError, Global};
use tsc_io::Items;
use tsc_net::{Name, NameList, Netlist, Parts};

/// Adds one copy of the covers at `kept`, and over it the check of each group of outputs of `net`; answers the names of the checks, in
/// order of groups. The copies are those of the covers that outputs depend on, in source order, each reading copies; a check is the
/// chain of exclusive ors over the copies of a group's outputs and its negation. Each node has a fresh name.
///
/// # Errors
///
/// Want of memory. The parts hold what they held, perhaps followed by some of the nodes and names.
#[tactic(auto, using(parity_code::proofs::PredictorParts::grows_not))]
pub fn add_shared(
    alloc: Global,
    net: &Netlist,
    kept: &[usize],
    groups: &Grouping,
    parts: &mut Parts,
) -> Result<NameList, AllocError>
    requires combinational { length net.now.circuit.latches ≡ 0 }
    requires cone { IsCone net.now.circuit net.now.circuit.outputs kept.now }
    requires filled { All (λ group. 0 < length group) groups.now }
    requires within { All (All (λ place. place < length net.now.circuit.outputs)) groups.now }
    requires inputs { HoldsInputs net.now parts.old.named }
    requires room { length parts.old.names + (length kept.now + length (concat_places groups.now)) < 2 ^ 32 }
    ensures grows { PartsGrow parts.old parts.new }
    ensures added { OnOk result (parts.new ≡ with_shared net.now kept.now groups.now parts.old) }
    ensures checks { IfOk result (λ checks. texts_of parts.new.names checks ≡ shared_texts net.now kept.now groups.now parts.old) }
    ensures names { IfOk result (All (IsName parts.new.names)) }
{
    // What the netlist keeps is known from here on.
    let _nets = net.nets();
    let names = copy_names(alloc, net, kept, parts)?;
    add_nodes(alloc, net, kept, &names, parts)?;
    add_checks(alloc, net, groups, &names, parts)
}

/// Adds the check of each group over the nets by these names, and answers the names of the checks.
#[tactic(auto, using(parity_code::proofs::PredictorParts::grows_not))]
fn add_checks(
    alloc: Global,
    net: &Netlist,
    groups: &Grouping,
    names: &[Name],
    parts: &mut Parts,
) -> Result<NameList, AllocError>
    requires sized { length names.now ≡ nets net.now.circuit }
    requires filled { All (λ group. 0 < length group) groups.now }
    requires within { All (All (λ place. place < length net.now.circuit.outputs)) groups.now }
    requires named { All (λ net. IsName parts.old.names (name_at names.now net)) net.now.circuit.outputs }
    requires room { length parts.old.names + length (concat_places groups.now) < 2 ^ 32 }
    ensures grows { PartsGrow parts.old parts.new }
    ensures added { OnOk result (parts.new ≡ with_group_checks net.now.circuit (λ net. text_of parts.old.names (name_at names.now net)) groups.now parts.old) }
    ensures checks { IfOk result (λ checks. texts_of parts.new.names checks ≡ group_check_texts net.now.circuit (λ net. text_of parts.old.names (name_at names.now net)) groups.now parts.old) }
    ensures names { IfOk result (All (IsName parts.new.names)) }
{
    let mut checks = Items::new(alloc);
    for group in groups.as_slice() {
        let check = add_check(alloc, net, group.as_slice(), names, parts)?;
        checks.push(check)?;
    }
    Ok(checks)
}

/// Adds the check of a group over the nets by these names, and answers its name.
#[tactic(auto, using(parity_code::proofs::PredictorParts::grows_not))]
fn add_check(
    alloc: Global,
    net: &Netlist,
    group: &[usize],
    names: &[Name],
    parts: &mut Parts,
) -> Result<Name, AllocError>
    requires sized { length names.now ≡ nets net.now.circuit }
    requires filled { 0 < length group.now }
    requires within { All (λ place. place < length net.now.circuit.outputs) group.now }
    requires named { All (λ net. IsName parts.old.names (name_at names.now net)) net.now.circuit.outputs }
    requires room { length parts.old.names + length group.now < 2 ^ 32 }
    ensures grows { PartsGrow parts.old parts.new }
    ensures added { OnOk result (parts.new ≡ with_parity parts.old (map (λ net. text_of parts.old.names (name_at names.now net)) (outputs_at net.now.circuit group.now))) }
    ensures check { IfOk result (λ check. HasText parts.new.names check (last_name parts.new)) }
{
    let outputs = output_names(alloc, net, group, names)?;
    add_parity(alloc, outputs.as_slice(), parts)
}
