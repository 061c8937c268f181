//! Fresh names: `t`, a number, `_` and a count.
ghost use Rattle.std.specs.Prelude.{◌≡◌, ◌^◌, ◌<◌, Some, length, IfOk};
ghost use Rattle.tsc_net.specs.Parts.{free_number};
ghost use Rattle.tsc_net.specs.PartsView.{IsFreshUnused};
ghost use Rattle.tsc_net.specs.inner.Fresh.{text_of_fresh};
ghost use Rattle.std.specs.String.{string_bytes};

use crate::names::NameTable;
use std::alloc::{AllocError, Global};

/// The number of the fresh names, and the count of the next one.
#[derive(Clone, Copy)]
pub struct FreshPart {
    /// The number behind the `t`: no other name begins with `t`, this number and `_`.
    pub number: u32,
    /// The count behind it.
    pub next: u32,
}

/// The text of the next fresh name.
pub fn fresh_text(alloc: Global, fresh: FreshPart) -> Result<String, AllocError>
    ensures text { IfOk result (λ text. string_bytes text ≡ text_of_fresh fresh) }
{
    let number = fresh.number;
    let next = fresh.next;
    format!(in alloc; "t{number}_{next}")
}

/// Where the fresh names begin: the least number such that no name begins with `t`, the number and `_`.
pub fn first_fresh(alloc: Global, names: &NameTable) -> Result<FreshPart, AllocError>
    requires room { length names.now < 2 ^ 32 }
    ensures number { IfOk result (λ fresh. fresh.number ≡ free_number names.now) }
    ensures next { IfOk result (λ fresh. fresh.next ≡ 0) }
    ensures unused { IfOk result (λ fresh. IsFreshUnused names.now (Some fresh)) }
{
    let number = names.free_number(alloc, b't')?;
    Ok(FreshPart { number, next: 0 })
}
