//! The sizes of a monitored word.
use tsc_net::Code;

/// What a checker depends on, besides the groups of parity: the code of a monitored word, and how long its parts are.
#[derive(Clone, Copy, Debug)]
pub struct WordSizes {
    /// The code.
    pub code: Code,
    /// The number of outputs.
    pub outputs: usize,
    /// The number of checks.
    pub checks: usize,
    /// The number of latches.
    pub latches: usize,
    /// How many ones a state word has; 0 without latches.
    pub weight: usize,
}
