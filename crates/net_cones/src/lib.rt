//! Cones: the nodes that some nets depend on.
//! Its main calls are `cone_marks`, which answers one mark per node, and `cone_places`, which answers their places.
//! It stands on `tsc_net` (netlists) and `fault_secure` (what a net depends on), below what is built and below what is judged.
//! Its main promise: a node is marked, or listed, exactly where some of the nets depends on it.
//! Its definitions are in `specs/`: Cones (what a cone is), Marks and ConeMarks (as it is computed).
#![tactic(auto)]

mod cones;

pub use cones::{cone_marks, cone_places};
