//! What a step shows.

/// What a step shows, without the nets at the latch inputs, which `Sim::next` has. A list of bits stands as a number, the first bit most
/// significant.
#[derive(Clone, Copy, Debug, PartialEq, Eq)]
pub struct StepView {
    /// The plan's outputs.
    pub outputs: u64,
    /// The checks.
    pub checks: u64,
    /// The first rail.
    pub rail1: bool,
    /// The second rail.
    pub rail2: bool,
}
