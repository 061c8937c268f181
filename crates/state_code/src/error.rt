//! Why there are no state words.

use std::alloc::AllocError;
use thiserror::Error;

/// Why there are no state words.
#[derive(Debug, Drop, Error)]
pub enum CodeError {
    /// There are more than 924 states.
    #[error("more than 924 states")]
    TooMany,
    /// Memory was missing.
    #[error("out of memory")]
    Memory(AllocError),
}
