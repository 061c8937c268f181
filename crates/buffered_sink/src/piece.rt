//! The pieces of a line.

/// A piece of a line.
#[derive(Clone, Copy, Debug)]
pub enum Piece<'a> {
    /// These bytes.
    Text(&'a [u8]),
    /// A number, in decimal digits without leading zeros.
    Number(u64),
}
