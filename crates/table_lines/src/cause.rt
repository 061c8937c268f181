//! Why a line is refused.

use tsc_text::Which;

/// Why a line is refused.
#[derive(Clone, Copy)]
pub enum Cause {
    /// A directive with wrong words or one that came before, or a row before `.i` or `.o`.
    Header,
    /// A directive that isn't read.
    Unsupported,
    /// No row of the table.
    RowShape,
    /// More than the limit.
    Limit(Which),
}

/// A line that is refused, by its number.
#[derive(Clone, Copy)]
pub struct LineFault {
    /// The number of its first physical line, from 1.
    pub line: usize,
    /// Why it is refused.
    pub cause: Cause,
}
