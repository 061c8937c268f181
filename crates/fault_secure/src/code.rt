//! The codes of a monitored word.
/// The code of a monitored word.
#[derive(Clone, Copy, Debug, PartialEq, Eq)]
pub enum Code {
    /// Each group of outputs and its check have an odd number of ones together.
    Parity,
    /// The checks are the number of zeros among the outputs, in binary.
    Berger,
    /// Of the k outputs and k checks exactly k are ones.
    MOutOfN,
}
