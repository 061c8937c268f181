//! Lines of gates.

use tsc_io::Items;

/// A line of some gates, by its number from 0 in the order in which the gates were added.
#[derive(Clone, Copy, Debug, PartialEq, Eq, Hash)]
pub struct Line {
    /// How many gates were added before its own.
    pub number: u32,
}

/// A list of lines.
pub type LineList = Items<Line>;
