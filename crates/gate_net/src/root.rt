//! Roots: names that are to have the values of lines.

use crate::line::Line;
use tsc_io::Items;
use tsc_net::Name;

/// A name, and the line whose value it is to have.
#[derive(Clone, Copy, Debug)]
pub struct Root {
    /// The name that a node is to drive.
    pub name: Name,
    /// The line whose value that name is to have.
    pub line: Line,
}

/// A list of roots.
pub type RootList = Items<Root>;
