//! Why a simulation can't be opened.

use std::alloc::AllocError;
use thiserror::Error;

/// Why a simulation can't be opened.
#[derive(Debug, Drop, Error)]
pub enum SimError {
    /// The fault isn't listed.
    #[error("fault not listed")]
    NotListed,
    /// Memory was missing.
    #[error("out of memory")]
    Memory(AllocError),
}
