//! Why a function has no row.

use std::alloc::AllocError;
use thiserror::Error;

/// Why a function has no row.
#[derive(Debug, Drop, Error)]
pub enum BuildError {
    /// All rows are used, and none of them stands for some cofactor of the function.
    #[error("no row is left")]
    Spent,
    /// Memory was missing.
    #[error("out of memory")]
    Memory(AllocError),
}
