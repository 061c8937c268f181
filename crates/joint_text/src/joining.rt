//! The joint of parts.
ghost use Rattle.std.specs.Prelude.{◌≡◌, ◌<◌, ◌≤◌, length, IfErr, IfOk, OnOk, IsFalse};
ghost use Rattle.module_join.specs.JointNet.{joint_inputs};
ghost use Rattle.module_join.specs.JoinLaws.{ArePlanned};
ghost use Rattle.module_join.specs.JoinLimits.{has_too_many_inputs, has_too_many_nodes, RefusesJoin};
ghost use Rattle.module_join.specs.JoinParts.{parts_as};
ghost use Rattle.joint_text.specs.JointTextLaws.{AreJoinable};

use crate::ends::ends_of;
use crate::joint::Joint;
use crate::labels::labels_of;
use module_join::{JoinError, Part, fits, joint_prefix, taken_names};
use std::alloc::{AllocError, Global};
use tsc_io::{Items, TextKey};
use tsc_net::NameTable;

/// The joint of 1 to 64 netlists, each with a plan that shows it: they go under one pair of rails, and inputs of equal name are one
/// input. The clock of all latches is that of the first part that has one. The joint's tables of names are under the key of the text
/// that the names are of. Beside the parts it takes one label per part, and the text of the joint's inputs, outputs and tree.
///
/// # Errors
///
/// More than 1,024 different input names; else more than 1,048,576 nodes, those of the tree among them; or want of memory.
pub fn join(alloc: Global, key: TextKey, parts: Items<Part>) -> Result<Joint, JoinError>
    requires some { 0 < length parts }
    requires few { length parts ≤ 64 }
    requires planned { ArePlanned (parts_as parts) }
    ensures joint { IfOk result (λ joint. joint ≡ parts_as parts) }
    ensures few_inputs { OnOk result (IsFalse (has_too_many_inputs (parts_as parts))) }
    ensures few_nodes { OnOk result (IsFalse (has_too_many_nodes (parts_as parts))) }
    ensures refused { IfErr result (RefusesJoin (parts_as parts)) }
{
    match fits(alloc, key, parts.as_slice()) {
        Ok(inputs) => match joint_of(alloc, &inputs, parts) {
            Ok(joint) => Ok(joint),
            Err(error) => Err(JoinError::Memory(error)),
        },
        Err(error) => Err(error),
    }
}

/// The joint of parts whose inputs have these names.
fn joint_of(alloc: Global, inputs: &NameTable, parts: Items<Part>) -> Result<Joint, AllocError>
    requires joinable { AreJoinable (parts_as parts) }
    requires inputs { inputs.now ≡ joint_inputs (parts_as parts) }
    ensures joint { IfOk result (λ joint. joint ≡ parts_as parts) }
{
    let taken = taken_names(alloc, inputs.key(), parts.as_slice())?;
    let prefix = joint_prefix(alloc, &taken)?;
    let labels = labels_of(alloc, prefix.as_slice(), parts.len())?;
    let ends = ends_of(alloc, inputs, prefix.as_slice(), &labels, &parts)?;
    Ok(Joint {
        parts,
        labels,
        ends,
    })
}
