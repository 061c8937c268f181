//! Predictors of groups, added to parts: for each group a copy of its outputs' logic, and the check, which makes it odd.
ghost use Rattle.std.specs.Prelude.{◌≡◌, ℕ, ◌+◌, ◌<◌, ◌^◌, [], ◌∷◌, map, length, All, IfOk, OnOk};
ghost use Rattle.fault_secure.specs.Circuit.{node, nets};
ghost use Rattle.tsc_net.specs.Names.{text_at};
ghost use Rattle.tsc_net.specs.Parts.{next_fresh};
ghost use Rattle.tsc_net.specs.PartsView.{text_of, texts_of, IsName};
ghost use Rattle.parity_code.specs.ParityFunction.{outputs_at};
ghost use Rattle.parity_code.specs.Held.{HoldsInputs, PartsGrow};
ghost use Rattle.parity_code.specs.Predictors.{with_fresh_names, with_gate, with_parity, with_nodes, node_by, with_predictor, with_predictors, check_texts, last_name, predictors_size};
ghost use Rattle.parity_code.specs.PredictorSteps.{Rise, name_at, HasText, given, NamesCopy, IsNameable};

use crate::first_fit::Grouping;
use crate::group_cones::group_places;
use std::alloc::{AllocError, Global};
use tsc_cover::{Cover, not_cover, xor_cover};
use tsc_io::Items;
use tsc_net::{Name, NameList, Netlist, Parts};

/// Adds a predictor for each group of outputs of `net`, and answers the names of their checks, in order of groups. A predictor is a copy, in
/// source order, of each cover that some output of the group depends on, then the chain of exclusive ors over the copies of
/// the outputs, and then the check, its negation. Each node has a fresh name. The parts have the inputs of `net` first.
///
/// # Errors
///
/// Want of memory. The parts hold what they held, perhaps followed by some of the nodes and names.
#[tactic(auto, using(crate::proofs::PredictorParts::grows_not))]
pub fn add_predictors(
    alloc: Global,
    net: &Netlist,
    groups: &Grouping,
    parts: &mut Parts,
) -> Result<NameList, AllocError>
    requires combinational { length net.now.circuit.latches ≡ 0 }
    requires filled { All (λ group. 0 < length group) groups.now }
    requires within { All (All (λ place. place < length net.now.circuit.outputs)) groups.now }
    requires inputs { HoldsInputs net.now parts.old.named }
    requires room { length parts.old.names + predictors_size net.now.circuit groups.now < 2 ^ 32 }
    ensures grows { PartsGrow parts.old parts.new }
    ensures added { OnOk result (parts.new ≡ with_predictors net.now groups.now parts.old) }
    ensures checks { IfOk result (λ checks. texts_of parts.new.names checks ≡ check_texts net.now groups.now parts.old) }
    ensures names { IfOk result (All (IsName parts.new.names)) }
{
    let mut checks = Items::new(alloc);
    for group in groups.as_slice() {
        let check = add_predictor(alloc, net, group.as_slice(), parts)?;
        checks.push(check)?;
    }
    Ok(checks)
}

/// Adds the predictor of a group of outputs, and answers the name of its check.
#[tactic(auto, using(crate::proofs::PredictorParts::grows_not))]
fn add_predictor(
    alloc: Global,
    net: &Netlist,
    group: &[usize],
    parts: &mut Parts,
) -> Result<Name, AllocError>
    requires combinational { length net.now.circuit.latches ≡ 0 }
    requires filled { 0 < length group.now }
    requires within { All (λ place. place < length net.now.circuit.outputs) group.now }
    requires inputs { HoldsInputs net.now parts.old.named }
    requires room { length parts.old.names + predictors_size net.now.circuit (group.now ∷ []) < 2 ^ 32 }
    ensures grows { PartsGrow parts.old parts.new }
    ensures added { OnOk result (parts.new ≡ with_predictor net.now group.now parts.old) }
    ensures check { IfOk result (λ check. HasText parts.new.names check (last_name parts.new)) }
{
    // What the netlist keeps is known from here on.
    let _nets = net.nets();
    let cone = group_places(alloc, net, group)?;
    let names = copy_names(alloc, net, cone.as_slice(), parts)?;
    add_nodes(alloc, net, cone.as_slice(), &names, parts)?;
    let outputs = output_names(alloc, net, group, &names)?;
    add_parity(alloc, outputs.as_slice(), parts)
}

/// A name for each net of the copy of the nodes at `cone`: an input's is that of the parts, a node's is fresh.
///
/// # Errors
///
/// Want of memory. The parts hold what they held, perhaps followed by some of the names.
#[tactic(auto, using(crate::proofs::PredictorParts::grows_not))]
pub fn copy_names(
    alloc: Global,
    net: &Netlist,
    cone: &[usize],
    parts: &mut Parts,
) -> Result<Vec<Name>, AllocError>
    requires combinational { length net.now.circuit.latches ≡ 0 }
    requires rise { Rise cone.now }
    requires within { All (λ place. place < length net.now.circuit.nodes) cone.now }
    requires inputs { HoldsInputs net.now parts.old.named }
    requires room { length parts.old.names + length cone.now < 2 ^ 32 }
    ensures grows { PartsGrow parts.old parts.new }
    ensures parts { OnOk result (parts.new ≡ with_fresh_names (length cone.now) parts.old) }
    ensures names { IfOk result (λ names. NamesCopy net.now cone.now parts.old parts.new names.items) }
{
    let mut names = input_names(alloc, net, parts)?;
    give_names(net.inputs(), cone, &mut names, parts)?;
    Ok(names)
}

/// A name for each net: an input's is that of the parts.
fn input_names(alloc: Global, net: &Netlist, parts: &Parts) -> Result<Vec<Name>, AllocError>
    requires inputs { HoldsInputs net.now parts.now.named }
    ensures sized { IfOk result (λ names. length names.items ≡ nets net.now.circuit) }
    ensures inputs { IfOk result (λ names. (i : ℕ) → i < net.now.circuit.inputs → HasText parts.now.names (name_at names.items i) (text_at net.now.names i)) }
{
    let mut names = vec![in alloc; Name { number: 0 }; net.nets()]?;
    for place in 0..net.inputs() {
        names[place] = parts.input_name(place);
    }
    Ok(names)
}

/// Gives a fresh name to the net of each node at these places; the node at place 0 drives the net `inputs`.
#[tactic(auto, using(crate::proofs::PredictorParts::grows_not))]
fn give_names(
    inputs: usize,
    places: &[usize],
    names: &mut [Name],
    parts: &mut Parts,
) -> Result<(), AllocError>
    requires within { All (λ place. inputs + place < length names.old) places.now }
    requires room { length parts.old.names + length places.now < 2 ^ 32 }
    ensures grows { PartsGrow parts.old parts.new }
    ensures names { OnOk result (names.new ≡ given inputs names.old places.now (length parts.old.names)) }
    ensures parts { OnOk result (parts.new ≡ with_fresh_names (length places.now) parts.old) }
{
    for place in places {
        names[inputs + *place] = parts.fresh()?;
    }
    Ok(())
}

/// Adds the nodes of `net` at these places, each net by the name that it has here.
///
/// # Errors
///
/// Want of memory. The parts hold what they held, perhaps followed by some of the nodes.
#[tactic(auto, using(crate::proofs::PredictorParts::grows_not))]
pub fn add_nodes(
    alloc: Global,
    net: &Netlist,
    places: &[usize],
    names: &[Name],
    parts: &mut Parts,
) -> Result<(), AllocError>
    requires sized { length names.now ≡ nets net.now.circuit }
    requires nameable { All (IsNameable net.now.circuit parts.old.names names.now) places.now }
    ensures grows { PartsGrow parts.old parts.new }
    ensures added { OnOk result (parts.new ≡ with_nodes parts.old (map (node_by net.now.circuit (λ n. text_of parts.old.names (name_at names.now n))) places.now)) }
{
    for place in places {
        add_copy(alloc, net, *place, names, parts)?;
    }
    Ok(())
}

/// Adds the node of `net` at a place, each net by the name that it has here.
#[tactic(auto, using(crate::proofs::PredictorParts::grows_not))]
fn add_copy(
    alloc: Global,
    net: &Netlist,
    place: usize,
    names: &[Name],
    parts: &mut Parts,
) -> Result<(), AllocError>
    requires sized { length names.now ≡ nets net.now.circuit }
    requires nameable { IsNameable net.now.circuit parts.old.names names.now place }
    ensures grows { PartsGrow parts.old parts.new }
    ensures added { OnOk result (parts.new ≡ with_nodes parts.old (node_by net.now.circuit (λ n. text_of parts.old.names (name_at names.now n)) place ∷ [])) }
{
    // What the netlist keeps is known from here on.
    let _nets = net.nets();
    let reads = read_names(alloc, net, place, names)?;
    let out = names[net.node_net(place).number as usize];
    let cover = net.node_cover(place).copy_of()?;
    parts.node(reads, out, cover)
}

/// The names of the nets that a node reads.
fn read_names(
    alloc: Global,
    net: &Netlist,
    place: usize,
    names: &[Name],
) -> Result<NameList, AllocError>
    requires sized { length names.now ≡ nets net.now.circuit }
    requires within { place < length net.now.circuit.nodes }
    ensures names { IfOk result (λ reads. reads ≡ map (name_at names.now) (node net.now.circuit place).reads) }
{
    // What the netlist keeps is known from here on.
    let _nets = net.nets();
    let mut reads = Items::new(alloc);
    for read in net.node_reads(place) {
        reads.push(names[read.number as usize])?;
    }
    Ok(reads)
}

/// The names of the nets of some outputs.
///
/// # Errors
///
/// Want of memory.
pub fn output_names(
    alloc: Global,
    net: &Netlist,
    group: &[usize],
    names: &[Name],
) -> Result<NameList, AllocError>
    requires sized { length names.now ≡ nets net.now.circuit }
    requires within { All (λ place. place < length net.now.circuit.outputs) group.now }
    ensures names { IfOk result (λ outputs. outputs ≡ map (name_at names.now) (outputs_at net.now.circuit group.now)) }
{
    // What the netlist keeps is known from here on.
    let _nets = net.nets();
    let outputs = net.outputs();
    let mut list = Items::new(alloc);
    for place in group {
        list.push(names[outputs[*place].number as usize])?;
    }
    Ok(list)
}

/// Adds the exclusive or of these names, from the left, and its negation, the check, whose name it answers.
///
/// # Errors
///
/// Want of memory. The parts hold what they held, perhaps followed by some of the nodes and names.
#[tactic(auto, using(crate::proofs::PredictorParts::grows_not))]
pub fn add_parity(alloc: Global, names: &[Name], parts: &mut Parts) -> Result<Name, AllocError>
    requires filled { 0 < length names.now }
    requires names { All (IsName parts.old.names) names.now }
    requires room { length parts.old.names + length names.now < 2 ^ 32 }
    ensures grows { PartsGrow parts.old parts.new }
    ensures added { OnOk result (parts.new ≡ with_parity parts.old (texts_of parts.old.names names.now)) }
    ensures check { IfOk result (λ check. HasText parts.new.names check (last_name parts.new)) }
{
    let mut made = names[0];
    for index in 1..names.len() {
        made = add_gate(alloc, &[made, names[index]], xor_cover(alloc)?, parts)?;
    }
    add_gate(alloc, &[made], not_cover(alloc)?, parts)
}

/// Adds a gate over some names, and answers its fresh name.
#[tactic(auto, using(crate::proofs::PredictorParts::grows_not))]
fn add_gate(
    alloc: Global,
    operands: &[Name],
    cover: Cover,
    parts: &mut Parts,
) -> Result<Name, AllocError>
    requires pins { length operands.now ≡ cover.width }
    requires names { All (IsName parts.old.names) operands.now }
    requires room { length parts.old.names + 1 < 2 ^ 32 }
    ensures grows { PartsGrow parts.old parts.new }
    ensures added { OnOk result (parts.new ≡ with_gate parts.old (texts_of parts.old.names operands.now) cover) }
    ensures number { IfOk result (λ name. name.number ≡ length parts.old.names) }
    ensures text { IfOk result (λ name. text_of parts.new.names name ≡ next_fresh parts.old) }
{
    let out = parts.fresh()?;
    let reads = Items::from_slice(alloc, operands)?;
    parts.node(reads, out, cover)?;
    Ok(out)
}
