//! Whether a netlist reads as another one mapped cover by cover.

use crate::reason::MappedReason;

/// Whether a netlist reads as another one mapped cover by cover.
#[derive(Clone, Copy, Debug, PartialEq, Eq)]
pub enum MappedAnswer {
    /// It does.
    Yes,
    /// It doesn't.
    No(MappedReason),
    /// It isn't decided: the first node whose gate isn't the very node and whose cover has more than 20 distinct pins.
    Wide { node: usize },
}
