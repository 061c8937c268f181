//! Why a text is refused.
ghost use Rattle.std.specs.Prelude.{◌≡◌};
ghost use Rattle.pla_read.specs.Refusal.{line_refusal};

use std::alloc::AllocError;
use table_lines::{Cause, LineFault};
use thiserror::Error;
use tsc_text::Which;

/// Why a section is refused. A line goes by the number of its first physical line, from 1.
#[derive(Debug, Drop, Error)]
pub enum PlaError {
    /// A directive with wrong words or one that came before, a row before `.i` or `.o`, names that don't fit (too many, too
    /// few, or one that stands twice), or no `.i` or no `.o`, which is told at the last line.
    #[error("line {line}: header")]
    Header { line: usize },
    /// A directive or a type that isn't read.
    #[error("line {line}: unsupported")]
    Unsupported { line: usize },
    /// No row of the table.
    #[error("line {line}: row shape")]
    RowShape { line: usize },
    /// A name, or a count of the section, first passes its limit here.
    #[error("line {line}: limit")]
    Limit { line: usize, which: Which },
    /// Memory was missing.
    #[error("out of memory")]
    Memory(AllocError),
}

/// The refusal of a line.
pub fn line_refusal(fault: LineFault) -> PlaError
    ensures refusal { result ≡ line_refusal fault }
{
    let line = fault.line;
    match fault.cause {
        Cause::Header => PlaError::Header { line },
        Cause::Unsupported => PlaError::Unsupported { line },
        Cause::RowShape => PlaError::RowShape { line },
        Cause::Limit(which) => PlaError::Limit { line, which },
    }
}
