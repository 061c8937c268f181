//! A joint of parts, ready to be printed.

use module_join::Part;
use std::marker::Model;
use tsc_io::{Bytes, Items};
use tsc_net::NameTexts;

/// What is printed before the lines of the parts, and after them.
#[derive(Drop)]
pub(crate) struct Ends {
    /// The lines of the model, the inputs and the outputs.
    pub head: Bytes,
    /// The lines of the tree, and the last one.
    pub tail: Bytes,
}

/// Netlists with their plans under one pair of rails. All memory for the text of their joint netlist was had: besides the parts it
/// has their labels, and the lines around those of the parts. Contracts see it as the list of the parts.
#[derive(Drop)]
pub struct Joint {
    pub(crate) parts: Items<Part>,
    pub(crate) labels: NameTexts,
    pub(crate) ends: Ends,
}

impl Model for Joint {
    ghost use Rattle.std.specs.Prelude.{List};
    ghost use Rattle.module_join.specs.JointNet.{PlannedOf};

    ghost Value = { List PlannedOf };

    ghost use Rattle.joint_text.specs.JointView.{joint_as, KeepsJoint};

    ghost view = { joint_as };

    ghost invariant = { KeepsJoint };
}
