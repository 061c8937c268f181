//! Why a text is refused.
ghost use Rattle.std.specs.Prelude.{◌≡◌};
ghost use Rattle.kiss_read.specs.Refusal.{line_refusal};

use std::alloc::AllocError;
use table_lines::{Cause, LineFault};
use thiserror::Error;
use tsc_text::Which;

/// Why a section is refused. A line goes by the number of its first physical line, from 1.
#[derive(Debug, Drop, Error)]
pub enum KissError {
    /// A directive with wrong words or one that came before, a row before `.i` or `.o`, or names that don't fit: too many, too
    /// few, or one that stands twice.
    #[error("line {line}: header")]
    Header { line: usize },
    /// A directive that isn't read.
    #[error("line {line}: unsupported")]
    Unsupported { line: usize },
    /// No row of the table.
    #[error("line {line}: row shape")]
    RowShape { line: usize },
    /// A name, or a count of the section, first passes its limit here.
    #[error("line {line}: limit")]
    Limit { line: usize, which: Which },
    /// No row names a state.
    #[error("no rows")]
    NoRows,
    /// The reset state is named by no row.
    #[error("line {line}: no reset state")]
    NoReset { line: usize },
    /// Two rows of one state, one of which may be of every state, share an input and, completed, differ.
    #[error("line {later}: conflicts with line {earlier}")]
    Conflict { earlier: usize, later: usize },
    /// Memory was missing.
    #[error("out of memory")]
    Memory(AllocError),
}

/// The refusal of a line.
pub fn line_refusal(fault: LineFault) -> KissError
    ensures refusal { result ≡ line_refusal fault }
{
    let line = fault.line;
    match fault.cause {
        Cause::Header => KissError::Header { line },
        Cause::Unsupported => KissError::Unsupported { line },
        Cause::RowShape => KissError::RowShape { line },
        Cause::Limit(which) => KissError::Limit { line, which },
    }
}
