//! Two places of a draft that make a two-rail pair.

/// The places of the two signals of a pair.
#[derive(Clone, Copy)]
pub struct PairPlaces {
    /// The place of the first signal.
    pub first: usize,
    /// The place of the second one.
    pub second: usize,
}
