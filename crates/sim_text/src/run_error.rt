//! Why the lines of a run aren't printed.

use std::alloc::AllocError;
use thiserror::Error;

/// Why the lines of a run aren't printed to their end.
#[derive(Debug, Drop, Error)]
pub enum RunError {
    /// The fault isn't listed.
    #[error("fault not listed")]
    NotListed,
    /// Memory was missing, before the first byte was printed.
    #[error("out of memory")]
    Memory(AllocError),
    /// The sink failed.
    #[error("writing failed")]
    WriteFault,
}
