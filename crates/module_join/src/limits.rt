//! The limits of a joint netlist.
ghost use Rattle.std.specs.Prelude.{◌≡◌, ◌-◌, ◌^◌, min, length, IfOk, IfErr, OnOk, IsFalse};
ghost use Rattle.std.specs.List.{sum_by};
ghost use Rattle.code_checkers.specs.Tree.{tree_gates};
ghost use Rattle.module_join.specs.JointNet.{joint_inputs as joint_inputs_of};
ghost use Rattle.module_join.specs.JoinParts.{parts_as};
ghost use Rattle.module_join.specs.JoinLimits.{joint_nodes, has_too_many_inputs, has_too_many_nodes, RefusesJoin};

use crate::inputs::joint_inputs;
use crate::part::Part;
use std::alloc::{AllocError, Global};
use thiserror::Error;
use tsc_io::TextKey;
use tsc_net::NameTable;

/// The most inputs that a joint netlist has.
const MOST_INPUTS: usize = 1_024;

/// The most nodes that a joint netlist has.
const MOST_NODES: usize = 1_048_576;

/// Why there is no joint netlist.
#[derive(Debug, Drop, Error)]
pub enum JoinError {
    /// The inputs of the parts have more than 1,024 different names.
    #[error("more than 1024 inputs")]
    TooManyInputs,
    /// The joint would have more than 1,048,576 nodes.
    #[error("more than 1048576 nodes")]
    TooManyNodes,
    /// Memory was missing.
    #[error("out of memory")]
    Memory(AllocError),
}

/// The names of the inputs of parts that a joint netlist may have, each once, in the order in which they were first seen.
///
/// # Errors
///
/// More than 1,024 names; else more than 1,048,576 nodes, those of the tree over the parts among them; or want of memory.
pub fn fits(alloc: Global, key: TextKey, parts: &[Part]) -> Result<NameTable, JoinError>
    ensures names { IfOk result (λ names. names ≡ joint_inputs_of (parts_as parts.now)) }
    ensures few_inputs { OnOk result (IsFalse (has_too_many_inputs (parts_as parts.now))) }
    ensures few_nodes { OnOk result (IsFalse (has_too_many_nodes (parts_as parts.now))) }
    ensures refused { IfErr result (RefusesJoin (parts_as parts.now)) }
{
    match joint_inputs(alloc, key, parts) {
        Ok(names) => match limits(names.len(), parts) {
            Ok(()) => Ok(names),
            Err(error) => Err(error),
        },
        Err(error) => Err(JoinError::Memory(error)),
    }
}

/// Tries the limits of the joint of parts that has so many inputs.
fn limits(inputs: usize, parts: &[Part]) -> Result<(), JoinError>
    requires counted { inputs ≡ length (joint_inputs_of (parts_as parts.now)) }
    ensures few_inputs { OnOk result (IsFalse (has_too_many_inputs (parts_as parts.now))) }
    ensures few_nodes { OnOk result (IsFalse (has_too_many_nodes (parts_as parts.now))) }
    ensures refused { IfErr result (RefusesJoin (parts_as parts.now)) }
{
    if inputs > MOST_INPUTS {
        return Err(JoinError::TooManyInputs);
    }
    let nodes = joint_nodes(parts);
    if nodes > MOST_NODES {
        return Err(JoinError::TooManyNodes);
    }
    Ok(())
}

/// How many nodes the joint of parts has; the greatest number, where it is above it.
fn joint_nodes(parts: &[Part]) -> usize
    ensures count { result ≡ min (joint_nodes (parts_as parts.now)) (2 ^ 64 - 1) }
{
    part_nodes(parts).saturating_add(tree_gates(parts.len()))
}

/// How many nodes the parts have together; the greatest number, where it is above it.
fn part_nodes(parts: &[Part]) -> usize
    ensures count { result ≡ min (sum_by (λ part. length part.net.circuit.nodes) parts.now) (2 ^ 64 - 1) }
{
    let mut total: usize = 0;
    for part in parts {
        total = total.saturating_add(part.net.nodes());
    }
    total
}

/// How many gates the tree over so many parts has; the greatest number, where it is above it.
fn tree_gates(parts: usize) -> usize
    ensures count { result ≡ min (tree_gates parts) (2 ^ 64 - 1) }
{
    let cells = parts.saturating_sub(1);
    cells.saturating_mul(6).saturating_add(2)
}
