//! Why a text is refused.

use std::alloc::AllocError;
use thiserror::Error;

/// Why a text has no lines.
#[derive(Debug, Drop, Error)]
pub enum TextError {
    /// A byte is not printable ASCII, tab, CR or LF. It is the first such byte.
    #[error("line {line}: byte")]
    BadByte {
        /// Its physical line, from 1.
        line: usize,
    },
    /// Memory was missing.
    #[error("out of memory")]
    Memory(AllocError),
}
