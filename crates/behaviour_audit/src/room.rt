//! Room that the walk over all points has from its start.
use crate::lanes::Lanes;
use tsc_net::Bits;

/// Room for a word, for the outputs that a source chooses and for those that it leaves free, at one point and at 64 of them.
#[derive(Drop)]
pub(crate) struct Room {
    /// A bit a monitored net.
    pub word: Bits,
    /// A bit an output: the one that the source chooses.
    pub chosen: Bits,
    /// A bit an output: whether the source leaves it free.
    pub free: Bits,
    /// A lane a monitored net.
    pub lanes: Lanes,
    /// A lane an output: the bits that the source chooses.
    pub source_lanes: Lanes,
    /// A lane an output: whether the source leaves it free.
    pub free_lanes: Lanes,
}
