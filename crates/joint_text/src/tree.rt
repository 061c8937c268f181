//! The tree over the parts' rails: its gates, their names and their lines.
ghost use Rattle.std.specs.Prelude.{◌≡◌, ◌+◌, ◌*◌, ◌<◌, ◌≤◌, ◌^◌, ◌++◌, [], ◌∷◌, codes, length, IfOk, OnOk};
ghost use Rattle.std.specs.List.{flat_map};
ghost use Rattle.tsc_text.specs.Written.{line_of_words, line_text, text_of};
ghost use Rattle.blif_write.specs.Layout.{node_lines};
ghost use Rattle.code_checkers.specs.CheckerNodes.{net_behind};
ghost use Rattle.code_checkers.specs.Gates.{AreOrdered, ReadsBelow};
ghost use Rattle.code_checkers.specs.Tree.{IsTreeOf};
ghost use Rattle.tsc_net.specs.Names.{text_at};
ghost use Rattle.module_join.specs.JointNet.{tree_text};
ghost use Rattle.joint_text.specs.JointNamed.{gate_name, gate_names, named_gate, named_gates};
ghost use Rattle.joint_text.specs.TreeWords.{IsWithin, AreWithin};

use crate::words::{end_line, push_word};
use code_checkers::{CheckGate, CheckGates, tree_of};
use module_join::tree_text;
use std::alloc::{AllocError, Global};
use tsc_io::Bytes;
use tsc_net::NameTexts;

/// The gates of the tree over the parts' rails, and the name of each.
#[derive(Drop)]
pub struct NamedTree {
    /// The gates.
    pub gates: CheckGates,
    /// Their names; at a place of the word that of the rail.
    pub names: NameTexts,
}

/// The tree over so many pairs of rails of these names.
///
/// # Errors
///
/// Want of memory.
pub fn named_tree(
    alloc: Global,
    prefix: &[u8],
    rails: &NameTexts,
    pairs: usize,
) -> Result<NamedTree, AllocError>
    requires some { 0 < pairs }
    requires few { pairs ≤ 64 }
    requires rails { length rails.now ≡ 2 * pairs }
    ensures tree { IfOk result (λ tree. IsTreeOf pairs tree.gates) }
    ensures names { IfOk result (λ tree. tree.names ≡ gate_names prefix.now rails.now 0 tree.gates.gates) }
{
    let gates = tree_of(alloc, pairs)?;
    let names = names_of_gates(alloc, prefix, rails, &gates)?;
    Ok(NamedTree { gates, names })
}

/// The names of gates over the names of the places of their word.
fn names_of_gates(
    alloc: Global,
    prefix: &[u8],
    rails: &NameTexts,
    gates: &CheckGates,
) -> Result<NameTexts, AllocError>
    requires within { AreWithin (length rails.now) gates.now.gates }
    ensures names { IfOk result (λ names. names ≡ gate_names prefix.now rails.now 0 gates.now.gates) }
{
    let mut names = NameTexts::new(alloc);
    let mut number: usize = 0;
    for place in 0..gates.len() {
        let gate = gates.get(place);
        names.push(gate_text(alloc, prefix, rails, gate, number)?)?;
        number = number_behind(number, gate);
    }
    Ok(names)
}

/// The name of a gate, where the tree's next node has this number.
fn gate_text(
    alloc: Global,
    prefix: &[u8],
    rails: &NameTexts,
    gate: CheckGate,
    number: usize,
) -> Result<Bytes, AllocError>
    requires within { IsWithin (length rails.now) gate }
    ensures text { IfOk result (λ text. text ≡ gate_name rails.now (tree_text prefix.now number) gate) }
{
    match gate {
        CheckGate::Word { place } => Bytes::from_slice(alloc, rails.get(place).as_slice()),
        CheckGate::Buf { a: _ } => tree_text(alloc, prefix, number),
        CheckGate::Not { a: _ } => tree_text(alloc, prefix, number),
        CheckGate::And { a: _, b: _ } => tree_text(alloc, prefix, number),
        CheckGate::Or { a: _, b: _ } => tree_text(alloc, prefix, number),
        CheckGate::Xor { a: _, b: _ } => tree_text(alloc, prefix, number),
    }
}

/// The number of the tree's next node after a gate.
fn number_behind(number: usize, gate: CheckGate) -> usize
    requires room { number + 1 < 2 ^ 64 }
    ensures number { result ≡ net_behind number gate }
{
    match gate {
        CheckGate::Word { place: _ } => number,
        CheckGate::Buf { a: _ } => number + 1,
        CheckGate::Not { a: _ } => number + 1,
        CheckGate::And { a: _, b: _ } => number + 1,
        CheckGate::Or { a: _, b: _ } => number + 1,
        CheckGate::Xor { a: _, b: _ } => number + 1,
    }
}

/// Adds the lines of the tree's nodes.
///
/// # Errors
///
/// Want of memory.
pub fn push_tree(out: &mut Bytes, tree: &NamedTree) -> Result<(), AllocError>
    requires ordered { AreOrdered tree.now.gates.gates }
    requires named { length tree.now.names ≡ length tree.now.gates.gates }
    ensures lines { OnOk result (out.new ≡ out.old ++ text_of (flat_map node_lines (named_gates tree.now.names tree.now.names tree.now.gates.gates))) }
{
    for place in 0..tree.gates.len() {
        let name = tree.names.get(place).as_slice();
        push_gate(out, &tree.names, name, tree.gates.get(place))?;
    }
    Ok(())
}

/// Adds the lines of a gate's node; none at a place of the word.
fn push_gate(
    out: &mut Bytes,
    names: &NameTexts,
    name: &[u8],
    gate: CheckGate,
) -> Result<(), AllocError>
    requires reads { ReadsBelow (length names.now) gate }
    ensures lines { OnOk result (out.new ≡ out.old ++ text_of (flat_map node_lines (named_gate names.now name.now gate))) }
{
    match gate {
        CheckGate::Word { place: _ } => Ok(()),
        CheckGate::Buf { a } => push_unary(out, names, a, name, b"1 1\n"),
        CheckGate::Not { a } => push_unary(out, names, a, name, b"0 1\n"),
        CheckGate::And { a, b } => push_binary(out, names, a, b, name, b"11 1\n"),
        CheckGate::Or { a, b } => push_binary(out, names, a, b, name, b"1- 1\n-1 1\n"),
        CheckGate::Xor { a, b } => push_binary(out, names, a, b, name, b"10 1\n01 1\n"),
    }
}

/// Adds `.names A NAME`, A being the name of a gate, and these rows.
fn push_unary(
    out: &mut Bytes,
    names: &NameTexts,
    a: usize,
    name: &[u8],
    rows: &[u8],
) -> Result<(), AllocError>
    requires within { a < length names.now }
    ensures lines { OnOk result (out.new ≡ out.old ++ (line_text (line_of_words (codes ".names" ∷ text_at names.now a ∷ name.now ∷ [])) ++ rows.now)) }
{
    out.append(b".names")?;
    push_word(out, names.get(a).as_slice())?;
    push_word(out, name)?;
    end_line(out)?;
    out.append(rows)
}

/// Adds `.names A B NAME`, A and B being the names of gates, and these rows.
fn push_binary(
    out: &mut Bytes,
    names: &NameTexts,
    a: usize,
    b: usize,
    name: &[u8],
    rows: &[u8],
) -> Result<(), AllocError>
    requires first { a < length names.now }
    requires second { b < length names.now }
    ensures lines { OnOk result (out.new ≡ out.old ++ (line_text (line_of_words (codes ".names" ∷ text_at names.now a ∷ text_at names.now b ∷ name.now ∷ [])) ++ rows.now)) }
{
    out.append(b".names")?;
    push_word(out, names.get(a).as_slice())?;
    push_word(out, names.get(b).as_slice())?;
    push_word(out, name)?;
    end_line(out)?;
    out.append(rows)
}
