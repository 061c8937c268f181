//! The joint of the netlists of a text.
ghost use Rattle.std.specs.Prelude.{◌≡◌, ◌<◌, ◌≤◌, All, None, length, IfErr, IfOk, OnOk};
ghost use Rattle.joint_text.specs.JointText.{joint_bytes};
ghost use Rattle.module_join.specs.JoinLaws.{ArePlanned};
ghost use Rattle.module_join.specs.JoinParts.{parts_as};
ghost use Rattle.module_join.specs.JointNet.{joint_clock};
ghost use Rattle.text_sections.specs.Refused.{IsRefusedBy};
ghost use Rattle.part_reading.specs.PartClocks.{AreClockedBy};
ghost use Rattle.part_reading.specs.Parts.{IsPartOf, parts_of};
ghost use Rattle.joint_answers.specs.JointParts.{join_lines_refusal, join_refusal, joint_refusal, parts_in};
ghost use Rattle.joint_answers.specs.JointReply.{IsJointReply};

use blif_write::read_nets_are_writable;
use joint_text::{
    Joint, join, joint_texts_are_cell_secure, joint_texts_are_fault_secure,
    joint_texts_are_fault_secure_for_sources, joint_texts_are_secure_for_sources,
    joint_texts_are_told,
};
use module_join::{JoinError, Part, plans_show_netlists};
use part_reading::planned_parts;
use refusals::{Limit, Refusal, TextRefusal};
use std::alloc::Global;
use text_sections::text_lines;
use tsc_io::{Bytes, Items, TextKey};
use tsc_text::Lines;

/// The joint of the netlists that `text` denotes one after another.
///
/// # Errors
///
/// The first refusal of the text, or want of memory.
pub fn joint_in(alloc: Global, text: &Bytes) -> Result<Joint, Refusal>
    requires short { length text.now ≤ 67108864 }
    ensures joint { IfOk result (λ joint. joint ≡ parts_in text.now) }
    ensures answers { IfOk result (λ joint. IsJointReply text.now (joint_bytes joint)) }
    ensures allowed { OnOk result (join_refusal text.now ≡ None) }
    ensures refused { IfErr result (IsRefusedBy (join_refusal text.now)) }
{
    read_nets_are_writable();
    plans_show_netlists();
    joint_texts_are_told();
    joint_texts_are_cell_secure();
    joint_texts_are_fault_secure();
    joint_texts_are_secure_for_sources();
    joint_texts_are_fault_secure_for_sources();
    let lines = text_lines(alloc, text)?;
    joint_of_lines(alloc, &lines)
}

/// The joint of the netlists that the lines denote.
fn joint_of_lines(alloc: Global, lines: &Lines) -> Result<Joint, Refusal>
    ensures joint { IfOk result (λ joint. joint ≡ parts_as (parts_of lines.now)) }
    ensures planned { OnOk result (All (IsPartOf lines.now) (parts_of lines.now)) }
    ensures some { OnOk result (0 < length (parts_of lines.now)) }
    ensures few { OnOk result (length (parts_of lines.now) ≤ 64) }
    ensures clocked { OnOk result (AreClockedBy (joint_clock (parts_as (parts_of lines.now))) (parts_as (parts_of lines.now))) }
    ensures allowed { OnOk result (join_lines_refusal lines.now ≡ None) }
    ensures refused { IfErr result (IsRefusedBy (join_lines_refusal lines.now)) }
{
    plans_show_netlists();
    let parts = planned_parts(alloc, lines)?;
    joint_of_parts(alloc, lines.key(), parts)
}

/// The joint of netlists with their plans. A table of the names of inputs is under the key of the text that they are of.
fn joint_of_parts(alloc: Global, key: TextKey, parts: Items<Part>) -> Result<Joint, Refusal>
    requires planned { ArePlanned (parts_as parts) }
    requires some { 0 < length parts }
    requires few { length parts ≤ 64 }
    ensures joint { IfOk result (λ joint. joint ≡ parts_as parts) }
    ensures allowed { OnOk result (joint_refusal (parts_as parts) ≡ None) }
    ensures refused { IfErr result (IsRefusedBy (joint_refusal (parts_as parts))) }
{
    match join(alloc, key, parts) {
        Ok(joint) => Ok(joint),
        Err(JoinError::TooManyInputs) => Err(Refusal::Text(TextRefusal::TooMany(
            Limit::JointInputs,
        ))),
        Err(JoinError::TooManyNodes) => Err(Refusal::Text(TextRefusal::TooMany(Limit::Covers))),
        Err(JoinError::Memory(error)) => Err(Refusal::Memory(error)),
    }
}
