//! A row of a diagram.

/// A row of a diagram: the input that it decides, from 0, and the rows that it goes on to where that input is 0 and where
/// it is 1.
#[derive(Clone, Copy)]
pub(crate) struct Decision {
    /// The input. A constant has the number of inputs here.
    pub input: u32,
    /// The row where the input is 0.
    pub low: u32,
    /// The row where the input is 1.
    pub high: u32,
}
