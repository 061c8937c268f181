//! Why there are no test vectors.

use std::alloc::AllocError;
use thiserror::Error;

/// Why there are no test vectors.
#[derive(Debug, Drop, Error)]
pub enum VecError {
    /// There are more than 65,536 points.
    #[error("too many points")]
    TooManyPoints,
    /// Memory was missing.
    #[error("out of memory")]
    Memory(AllocError),
}
