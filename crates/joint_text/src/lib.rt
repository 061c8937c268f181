//! The text of the joint netlist of netlists with their plans and their clock, printed from the parts.
//! Its main type is `Joint`, the parts and what is printed before and after their lines; `join` makes it, and `print_joint` prints its text.
//! It stands on `module_join` (the joint netlist), `blif_write` (the layout of a netlist) and `buffered_sink` (printing through a page).
//! Its main promise: what is printed is the layout of the joint netlist with its clock and without plan lines, and denotes the joint netlist, which is secure where each part is.
//! Definitions, in reading order: specs/JointText, JointNamed, Portions, JointTextLaws, JointView.
#![tactic(auto)]

mod clocks;
mod cover_rows;
mod ends;
mod joining;
mod joint;
mod labels;
mod laws;
mod names;
mod part_lines;
mod printing;
mod tree;
mod words;

pub use joining::join;
pub use joint::Joint;
pub use laws::{
    joint_texts_are_cell_secure, joint_texts_are_fault_secure,
    joint_texts_are_fault_secure_for_sources, joint_texts_are_secure_for_sources,
    joint_texts_are_told, joints_are_named,
};
pub use printing::print_joint;
