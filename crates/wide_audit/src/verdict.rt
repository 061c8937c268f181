//! The verdict of a wide audit.

use audit::Reason;
use std::alloc::AllocError;
use thiserror::Error;
use tsc_net::Bits;

/// Why a wide audit says no: the first condition that doesn't hold.
#[derive(Debug, Drop)]
pub enum WideReason {
    /// The shape, the structure or the checker, as the audit says it; never a point. A latch is a reason under every code.
    Structure(Reason),
    /// The monitored word is no codeword.
    Word {
        /// The bits of the inputs.
        input: Bits,
    },
    /// An output has a bit that the source doesn't have.
    Output {
        /// The bits of the inputs.
        input: Bits,
        /// The place of the output, from 0.
        bit: usize,
    },
}

/// The verdict of a wide audit.
#[derive(Debug, Drop)]
pub enum WideVerdict {
    /// Every condition holds.
    Yes,
    /// The first condition that doesn't.
    No(WideReason),
}

/// Why there is no verdict.
#[derive(Debug, Drop, Error)]
pub enum WideError {
    /// The functions that are stated have more different cofactors than there are rows.
    #[error("more than {rows} rows")]
    Spent {
        /// How many rows there are.
        rows: usize,
    },
    /// Memory was missing.
    #[error("out of memory")]
    Memory(AllocError),
}
