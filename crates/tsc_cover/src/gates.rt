//! The covers of the gates that a synthesis writes, and the tests of them.
ghost use Rattle.std.specs.Prelude.{◌≡◌, ◌↔◌, IfOk, IsTrue};
ghost use Rattle.tsc_cover.specs.Gates.{buf_cover, not_cover, and_cover, or_cover, xor_cover};

use crate::covers::Cover;
use crate::rows::Row01;
use std::alloc::{AllocError, Global};

/// The cover of one pin that gives its bit.
///
/// # Errors
///
/// Want of memory.
pub fn buf_cover(alloc: Global) -> Result<Cover, AllocError>
    ensures cover { IfOk result (λ c. c ≡ buf_cover) }
{
    Cover::of_rows(alloc, 1, true, &[Row01 { care: 1, value: 1 }])
}

/// The cover of one pin that gives the other bit.
///
/// # Errors
///
/// Want of memory.
pub fn not_cover(alloc: Global) -> Result<Cover, AllocError>
    ensures cover { IfOk result (λ c. c ≡ not_cover) }
{
    Cover::of_rows(alloc, 1, true, &[Row01 { care: 1, value: 0 }])
}

/// The cover of two pins that is 1 where both are.
///
/// # Errors
///
/// Want of memory.
pub fn and_cover(alloc: Global) -> Result<Cover, AllocError>
    ensures cover { IfOk result (λ c. c ≡ and_cover) }
{
    Cover::of_rows(alloc, 2, true, &[Row01 { care: 3, value: 3 }])
}

/// The cover of two pins that is 1 where some one is.
///
/// # Errors
///
/// Want of memory.
pub fn or_cover(alloc: Global) -> Result<Cover, AllocError>
    ensures cover { IfOk result (λ c. c ≡ or_cover) }
{
    Cover::of_rows(
        alloc,
        2,
        true,
        &[Row01 { care: 2, value: 2 }, Row01 { care: 1, value: 1 }],
    )
}

/// The cover of two pins that is 1 where they differ.
///
/// # Errors
///
/// Want of memory.
pub fn xor_cover(alloc: Global) -> Result<Cover, AllocError>
    ensures cover { IfOk result (λ c. c ≡ xor_cover) }
{
    Cover::of_rows(
        alloc,
        2,
        true,
        &[Row01 { care: 3, value: 2 }, Row01 { care: 3, value: 1 }],
    )
}

/// Whether this is the cover of one pin that gives its bit.
pub fn is_buf(cover: &Cover) -> bool
    ensures same { IsTrue result ↔ (cover.now ≡ buf_cover) }
{
    cover.is_table_of(1, true, &[Row01 { care: 1, value: 1 }])
}

/// Whether this is the cover of one pin that gives the other bit.
pub fn is_not(cover: &Cover) -> bool
    ensures same { IsTrue result ↔ (cover.now ≡ not_cover) }
{
    cover.is_table_of(1, true, &[Row01 { care: 1, value: 0 }])
}

/// Whether this is the cover of two pins that is 1 where both are.
pub fn is_and(cover: &Cover) -> bool
    ensures same { IsTrue result ↔ (cover.now ≡ and_cover) }
{
    cover.is_table_of(2, true, &[Row01 { care: 3, value: 3 }])
}

/// Whether this is the cover of two pins that is 1 where some one is.
pub fn is_or(cover: &Cover) -> bool
    ensures same { IsTrue result ↔ (cover.now ≡ or_cover) }
{
    cover.is_table_of(
        2,
        true,
        &[Row01 { care: 2, value: 2 }, Row01 { care: 1, value: 1 }],
    )
}

/// Whether this is the cover of two pins that is 1 where they differ.
pub fn is_xor(cover: &Cover) -> bool
    ensures same { IsTrue result ↔ (cover.now ≡ xor_cover) }
{
    cover.is_table_of(
        2,
        true,
        &[Row01 { care: 3, value: 2 }, Row01 { care: 3, value: 1 }],
    )
}
