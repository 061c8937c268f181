//! Why a line is refused.

use tsc_text::Which;

/// Why a line is refused.
#[derive(Clone, Copy)]
pub enum Cause {
    /// A directive that isn't read, or a second `.model`.
    Unsupported,
    /// A wrong number of words, or no type of a latch.
    WordCount,
    /// A row where no cover is open.
    RowOutside,
    /// No row of its cover.
    RowShape,
    /// A row whose output isn't that of the cover's first row.
    Mixed,
    /// A latch in a source.
    LatchInSource,
    /// A latch of a source whose type is that of no edge, or whose type and control aren't those of the first latch.
    LatchClock,
    /// The bit that a latch holds first is missing or unknown.
    LatchInit,
    /// No plan line, or one out of its place.
    PlanShape,
    /// More than the limit.
    Limit(Which),
}

/// A line that is refused, by its number.
#[derive(Clone, Copy)]
pub struct LineFault {
    /// The number of its first physical line, from 1.
    pub line: usize,
    /// Why it is refused.
    pub cause: Cause,
}
