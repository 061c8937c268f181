//! A checker, written into the parts of a netlist.
ghost use Rattle.std.specs.Prelude.{◌≡◌, ◌+◌, ◌<◌, ◌≤◌, ◌^◌, ◌∷◌, [], ◌++◌, length, All, Some, IfSome, IfOk, OnOk};
ghost use Rattle.std.specs.Option.{option_map};
ghost use Rattle.tsc_net.specs.Names.{IsNumbering};
ghost use Rattle.tsc_net.specs.PartsView.{text_of, texts_of, IsName};
ghost use Rattle.code_checkers.specs.Gates.{ReadsBelow as ReadsGatesBelow};
ghost use Rattle.net_writing.specs.Names.{Keeps};
ghost use Rattle.net_writing.specs.CheckerParts.{gate_parts, out_text, with_out, with_gate, with_gate_node, with_checker, given_name, ReadsBelow, IsOver, AreRailNames};

use crate::checker_gates::{cover_for, operand_names};
use code_checkers::{CheckGate, CheckGates};
use std::alloc::{AllocError, Global};
use tsc_io::Items;
use tsc_net::{Name, NameList, Parts};

/// The names of a checker's two rails.
#[derive(Clone, Copy, Debug)]
pub struct RailNames {
    /// The name of the first rail.
    pub first: Name,
    /// The name of the second rail.
    pub second: Name,
}

/// Adds a checker over the names of the places of its word, and answers the name of each of its gates. A place of the word has
/// the word's name there. Each other gate has a node, in order, which reads the names of the gates that the gate reads. It drives
/// the rail's name where it is a rail and names are given for them, and else the next fresh one.
///
/// # Errors
///
/// Want of memory. The parts hold what they held, perhaps followed by some of the nodes and names.
pub fn add_checker(
    alloc: Global,
    parts: &mut Parts,
    word: &[Name],
    gates: &CheckGates,
    rails: Option<RailNames>,
) -> Result<NameList, AllocError>
    requires word { All (IsName parts.old.names) word.now }
    requires over { IsOver (length word.now) gates.now }
    requires rails { AreRailNames parts.old.names rails }
    requires room { length parts.old.names + length gates.now.gates < 2 ^ 32 }
    ensures added { OnOk result (parts.new ≡ (with_checker parts.old (texts_of parts.old.names word.now) gates.now rails).parts) }
    ensures names { IfOk result (λ names. texts_of parts.new.names names ≡ (with_checker parts.old (texts_of parts.old.names word.now) gates.now rails).names) }
    ensures within { IfOk result (All (IsName parts.new.names)) }
    ensures sized { IfOk result (λ names. length names ≡ length gates.now.gates) }
    ensures keeps { OnOk result (Keeps parts.old.names parts.new.names) }
    ensures few { OnOk result (length parts.new.named.nodes ≤ length parts.old.named.nodes + length gates.now.gates) }
    ensures distinct { OnOk result (IsNumbering parts.old.names → IsNumbering parts.new.names) }
{
    let mut names = Items::new(alloc);
    for place in 0..gates.len() {
        let given = given_name(gates, rails, place);
        let name = add_gate(
            alloc,
            parts,
            word,
            gates.get(place),
            names.as_slice(),
            given,
        )?;
        names.push(name)?;
    }
    Ok(names)
}

/// The name that is given to the gate at a place: the rails have theirs, where names are given to them.
fn given_name(gates: &CheckGates, rails: Option<RailNames>, place: usize) -> Option<Name>
    ensures given { result ≡ given_name gates.now rails place }
{
    match rails {
        Some(rails) => rail_name(gates, rails, place),
        None => None,
    }
}

/// The name of the rail at a place, if there is one.
fn rail_name(gates: &CheckGates, rails: RailNames, place: usize) -> Option<Name>
    ensures given { result ≡ given_name gates.now (Some rails) place }
{
    if place == gates.rail1() {
        Some(rails.first)
    } else if place == gates.rail2() {
        Some(rails.second)
    } else {
        None
    }
}

/// Adds a gate over the names of the places of the word and of the gates before it, and answers its name.
fn add_gate(
    alloc: Global,
    parts: &mut Parts,
    word: &[Name],
    gate: CheckGate,
    names: &[Name],
    given: Option<Name>,
) -> Result<Name, AllocError>
    requires word { All (IsName parts.old.names) word.now }
    requires names { All (IsName parts.old.names) names.now }
    requires given { IfSome given (IsName parts.old.names) }
    requires reads { ReadsBelow (length word.now) (length names.now) gate }
    requires room { length parts.old.names + 1 < 2 ^ 32 }
    ensures added { IfOk result (λ name. gate_parts parts.new (names.now ++ name ∷ []) ≡ with_gate (texts_of parts.old.names word.now) (option_map (text_of parts.old.names) given) gate (gate_parts parts.old names.now)) }
    ensures name { IfOk result (IsName parts.new.names) }
    ensures keeps { OnOk result (Keeps parts.old.names parts.new.names) }
    ensures few { OnOk result (length parts.new.names ≤ length parts.old.names + 1) }
    ensures nodes { OnOk result (length parts.new.named.nodes ≤ length parts.old.named.nodes + 1) }
    ensures distinct { OnOk result (IsNumbering parts.old.names → IsNumbering parts.new.names) }
{
    match gate {
        CheckGate::Word { place } => Ok(word[place]),
        other => add_node(alloc, parts, other, names, given),
    }
}

/// Adds the node of a gate over the names of the gates before it, and answers the name that it drives.
fn add_node(
    alloc: Global,
    parts: &mut Parts,
    gate: CheckGate,
    names: &[Name],
    given: Option<Name>,
) -> Result<Name, AllocError>
    requires names { All (IsName parts.old.names) names.now }
    requires given { IfSome given (IsName parts.old.names) }
    requires reads { ReadsGatesBelow (length names.now) gate }
    requires room { length parts.old.names + 1 < 2 ^ 32 }
    ensures added { IfOk result (λ name. gate_parts parts.new (names.now ++ name ∷ []) ≡ with_gate_node (option_map (text_of parts.old.names) given) gate (gate_parts parts.old names.now)) }
    ensures name { IfOk result (IsName parts.new.names) }
    ensures keeps { OnOk result (Keeps parts.old.names parts.new.names) }
    ensures few { OnOk result (length parts.new.names ≤ length parts.old.names + 1) }
    ensures nodes { OnOk result (length parts.new.named.nodes ≤ length parts.old.named.nodes + 1) }
    ensures distinct { OnOk result (IsNumbering parts.old.names → IsNumbering parts.new.names) }
{
    let reads = operand_names(alloc, gate, names)?;
    let cover = cover_for(alloc, gate)?;
    let out = out_name(parts, given)?;
    parts.node(reads, out, cover)?;
    Ok(out)
}

/// The name that a node is to drive: the one that is given, or else a fresh one.
fn out_name(parts: &mut Parts, given: Option<Name>) -> Result<Name, AllocError>
    requires given { IfSome given (IsName parts.old.names) }
    requires room { length parts.old.names + 1 < 2 ^ 32 }
    ensures parts { OnOk result (parts.new ≡ with_out parts.old (option_map (text_of parts.old.names) given)) }
    ensures name { IfOk result (IsName parts.new.names) }
    ensures text { IfOk result (λ name. text_of parts.new.names name ≡ out_text parts.old (option_map (text_of parts.old.names) given)) }
    ensures distinct { OnOk result (IsNumbering parts.old.names → IsNumbering parts.new.names) }
{
    match given {
        Some(name) => Ok(name),
        None => parts.fresh(),
    }
}
