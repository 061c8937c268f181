//! What is printed before the lines of the parts, and after them.
ghost use Rattle.std.specs.Prelude.{◌≡◌, ◌++◌, [], ◌∷◌, codes, length, IfOk};
ghost use Rattle.std.specs.List.{flat_map};
ghost use Rattle.tsc_text.specs.Written.{text_of};
ghost use Rattle.tsc_net.specs.Names.{text_at};
ghost use Rattle.blif_write.specs.Layout.{end_line as last_line, inputs_line, model_line, node_lines, outputs_line};
ghost use Rattle.code_checkers.specs.Gates.{AreOrdered};
ghost use Rattle.code_checkers.specs.Tree.{IsTreeOf};
ghost use Rattle.module_join.specs.JointNet.{joint_inputs};
ghost use Rattle.module_join.specs.JoinParts.{parts_as};
ghost use Rattle.joint_text.specs.JointNamed.{labels_of, named_gates, prefix_of, rail_names, gate_names, shown_from};
ghost use Rattle.joint_text.specs.JointTextLaws.{AreJoinable};
ghost use Rattle.joint_text.specs.Portions.{head_text, tail_text};

use crate::joint::Ends;
use crate::names::{names_of_rails, names_shown};
use crate::tree::{NamedTree, named_tree, push_tree};
use crate::words::{end_line, push_table, push_word};
use module_join::Part;
use std::alloc::{AllocError, Global};
use tsc_io::{Bytes, Items, TextKey};
use tsc_net::{NameTable, NameTexts};

/// What is printed before the lines of parts with these labels, and after them, where these are the names of the joint's inputs and
/// the prefix of its other names.
///
/// # Errors
///
/// Want of memory.
pub fn ends_of(
    alloc: Global,
    inputs: &NameTable,
    prefix: &[u8],
    labels: &NameTexts,
    parts: &Items<Part>,
) -> Result<Ends, AllocError>
    requires joinable { AreJoinable (parts_as parts.now) }
    requires inputs { inputs.now ≡ joint_inputs (parts_as parts.now) }
    requires prefix { prefix.now ≡ prefix_of (parts_as parts.now) }
    requires labels { labels.now ≡ labels_of (parts_as parts.now) }
    ensures head { IfOk result (λ ends. ends.head ≡ head_text (parts_as parts.now)) }
    ensures tail { IfOk result (λ ends. ends.tail ≡ tail_text (parts_as parts.now)) }
{
    let tree = tree_over(alloc, prefix, labels, parts)?;
    let head = head_over(alloc, inputs, labels, parts, &tree)?;
    let tail = tail_over(alloc, &tree)?;
    Ok(Ends { head, tail })
}

/// The tree over the rails of the parts.
fn tree_over(
    alloc: Global,
    prefix: &[u8],
    labels: &NameTexts,
    parts: &Items<Part>,
) -> Result<NamedTree, AllocError>
    requires joinable { AreJoinable (parts_as parts.now) }
    requires prefix { prefix.now ≡ prefix_of (parts_as parts.now) }
    requires labels { labels.now ≡ labels_of (parts_as parts.now) }
    ensures tree { IfOk result (λ tree. IsTreeOf (length parts.now) tree.gates) }
    ensures names { IfOk result (λ tree. tree.names ≡ gate_names (prefix_of (parts_as parts.now)) (rail_names (prefix_of (parts_as parts.now)) 0 (parts_as parts.now)) 0 tree.gates.gates) }
{
    let rails = names_of_rails(alloc, labels, parts)?;
    named_tree(alloc, prefix, &rails, parts.len())
}

/// The lines of the model, the inputs and the outputs.
fn head_over(
    alloc: Global,
    inputs: &NameTable,
    labels: &NameTexts,
    parts: &Items<Part>,
    tree: &NamedTree,
) -> Result<Bytes, AllocError>
    requires joinable { AreJoinable (parts_as parts.now) }
    requires inputs { inputs.now ≡ joint_inputs (parts_as parts.now) }
    requires labels { labels.now ≡ labels_of (parts_as parts.now) }
    requires tree { IsTreeOf (length parts.now) tree.now.gates }
    requires names { tree.now.names ≡ gate_names (prefix_of (parts_as parts.now)) (rail_names (prefix_of (parts_as parts.now)) 0 (parts_as parts.now)) 0 tree.now.gates.gates }
    ensures head { IfOk result (λ head. head ≡ head_text (parts_as parts.now)) }
{
    let shown = names_shown(alloc, inputs.key(), labels, parts)?;
    let rail1 = tree.names.get(tree.gates.rail1()).as_slice();
    let rail2 = tree.names.get(tree.gates.rail2()).as_slice();
    head_lines(alloc, inputs, &shown, rail1, rail2)
}

/// The lines of the model, of these inputs, and of the outputs, which are what is shown and the two rails.
fn head_lines(
    alloc: Global,
    inputs: &NameTable,
    shown: &NameTable,
    rail1: &[u8],
    rail2: &[u8],
) -> Result<Bytes, AllocError>
    ensures head { IfOk result (λ head. head ≡ text_of (model_line (codes "joint") ∷ inputs_line inputs.now ∷ outputs_line (shown.now ++ rail1.now ∷ rail2.now ∷ []) ∷ [])) }
{
    let mut out = Bytes::from_slice(alloc, b".model joint\n.inputs")?;
    push_table(&mut out, inputs)?;
    end_line(&mut out)?;
    out.append(b".outputs")?;
    push_table(&mut out, shown)?;
    push_word(&mut out, rail1)?;
    push_word(&mut out, rail2)?;
    end_line(&mut out)?;
    Ok(out)
}

/// The lines of the tree, and the last one.
fn tail_over(alloc: Global, tree: &NamedTree) -> Result<Bytes, AllocError>
    requires ordered { AreOrdered tree.now.gates.gates }
    requires named { length tree.now.names ≡ length tree.now.gates.gates }
    ensures tail { IfOk result (λ tail. tail ≡ text_of (flat_map node_lines (named_gates tree.now.names tree.now.names tree.now.gates.gates)) ++ text_of (last_line ∷ [])) }
{
    let mut out = Bytes::new(alloc);
    push_tree(&mut out, tree)?;
    out.append(b".end\n")?;
    Ok(out)
}
