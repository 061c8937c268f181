//! Reading a source to its end.
ghost use Rattle.std.specs.Prelude.{◌≡◌, ◌+◌, ◌<◌, ◌≤◌, ◌++◌, ◌↔◌, ℕ, List, length, IfOk, OnOk, IfErr, IsErrOf, IsSome, IfSome};
ghost use Rattle.std.specs.Io.KnownBytes.{Consumes, IsAtEnd};
ghost use Rattle.tsc_io.specs.Counts.{Rose};
ghost use Rattle.tsc_io.specs.Reading.{CameMore};

use crate::items::Bytes;
use crate::source::Source;
use std::alloc::{AllocError, Global};
use thiserror::Error;

/// The most bytes that one call asks for.
const BLOCK: usize = 4096;

/// Why a source was not read to its end.
#[derive(Debug, Drop, Error)]
pub enum InError {
    /// The source failed.
    #[error("reading failed")]
    ReadFault,
    /// More bytes came than the limit.
    #[error("more bytes came than are allowed")]
    TooLong,
    /// Memory was missing.
    #[error("out of memory")]
    Memory(AllocError),
}

/// Reads `source` to its end, and answers its bytes, which are at most `limit`.
///
/// It stops as soon as more than `limit` bytes came.
///
/// # Errors
///
/// The source failed, more than `limit` bytes came, or want of memory.
pub fn read_all<S: Source>(alloc: Global, source: &mut S, limit: usize) -> Result<Bytes, InError>
    requires { limit ≤ 67108864 }

    // At Ok these are all the bytes up to the end of input.
    ensures whole { IfOk result (λ bytes. Consumes (S.left source.old) (S.left source.new) bytes) }
    ensures end { OnOk result (IsAtEnd (S.left source.new)) }
    ensures within { IfOk result (λ bytes. length bytes ≤ limit) }
    ensures all { IfOk result (λ bytes. IfSome (S.left source.old) (λ left. bytes ≡ left)) }

    // Whatever the answer, the source lost what came, from the front.
    ensures came { (came : List ℕ) × Consumes (S.left source.old) (S.left source.new) came }

    // Where the source tells its bytes, it is too long exactly where more than `limit` of them came.
    ensures too_long { IsSome (S.left source.old)
        → (IsErrOf result InError.TooLong ↔ CameMore limit (S.left source.old) (S.left source.new)) }

    // Reading fails only where the source did.
    ensures read_fault { IsErrOf result InError.ReadFault → Rose (S.faults source.old) (S.faults source.new) }
    ensures faults_stay { S.faults source.old ≤ S.faults source.new }

    // Each read but the last gives a byte.
    ensures calls_stay { S.calls source.old ≤ S.calls source.new }
    ensures few_calls { S.calls source.new ≤ S.calls source.old + (limit + 2) }
{
    let mut block = [0; BLOCK];
    let mut held = Bytes::new(alloc);
    loop {
        let count = read_piece(source, &mut block, &mut held, limit)?;
        if count == 0 {
            return Ok(held);
        }
    }
}

/// Reads one piece, adds it to `held`, and answers its length, which is 0 at the end of input.
fn read_piece<S: Source>(
    source: &mut S,
    block: &mut [u8],
    held: &mut Bytes,
    limit: usize,
) -> Result<usize, InError>
    requires room { 0 < length block.old }
    requires within { length held.old ≤ limit }
    ensures came { IfOk result (λ count. (piece : List ℕ) × (length piece ≡ count)
        × Consumes (S.left source.old) (S.left source.new) piece × (held.new ≡ held.old ++ piece)) }
    ensures end { IfOk result (λ count. count ≡ 0 → IsAtEnd (S.left source.new)) }
    ensures within { OnOk result (length held.new ≤ limit) }
    ensures refused { IfErr result (λ e. (piece : List ℕ)
        × Consumes (S.left source.old) (S.left source.new) piece
        × ((e ≡ InError.TooLong) ↔ (limit < length held.old + length piece))) }
    ensures read_fault { IsErrOf result InError.ReadFault → Rose (S.faults source.old) (S.faults source.new) }
    ensures faults_stay { S.faults source.old ≤ S.faults source.new }
    ensures calls_stay { S.calls source.old ≤ S.calls source.new }
    ensures one_call { S.calls source.new ≤ S.calls source.old + 1 }
{
    let Ok(count) = source.read(block) else {
        return Err(InError::ReadFault);
    };
    if count > limit - held.len() {
        return Err(InError::TooLong);
    }
    held.append(&block[..count]).map_err(InError::Memory)?;
    Ok(count)
}
