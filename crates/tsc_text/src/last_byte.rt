//! Words of one byte that are told from the word before them.
ghost use Rattle.std.specs.Prelude.{◌≡◌, ◌+◌, ◌^◌, ◌<◌, ◌≤◌, ◌++◌, true, length, All, OnOk, OnErr};
ghost use Rattle.tsc_text.specs.declared.places.Place.{Place};
ghost use Rattle.tsc_text.specs.Kept.{behind, byte_of, last_of};

use crate::place_list::WordPlaces;
use crate::places::{Place, byte_behind};
use std::alloc::AllocError;

/// True only where a place after the first `from` is kept, and the word is one byte that stands one byte after the last; what rests
/// on false is memory alone.
pub fn is_byte_behind(kept: &WordPlaces, from: usize, place: Place) -> bool
    requires rises { place.start < place.past }
    requires low { All (λ (kept : Place). kept.past ≤ 2 ^ 26) kept.now }
    ensures some { result ≡ true → from < length kept.now }
    ensures behind { result ≡ true → place ≡ behind (last_of kept.now (length kept.now)) }
{
    if place.past - place.start > 1 || kept.len() <= from {
        return false;
    }
    place.start == kept.get(kept.len() - 1).past + 1
}

/// Keeps the place of the word after the last, if there is one more.
///
/// # Errors
///
/// Want of memory.
pub fn keep_byte(kept: &mut WordPlaces, has_byte: bool) -> Result<(), AllocError>
    requires few { length kept.old < 2 ^ 26 }
    requires some { has_byte ≡ true → 0 < length kept.old }
    requires within { has_byte ≡ true → (last_of kept.old (length kept.old)).past + 2 ≤ 2 ^ 26 }
    ensures ok { OnOk result (kept.new ≡ kept.old ++ byte_of kept.old (length kept.old) has_byte) }
    ensures err { OnErr result (kept.new ≡ kept.old) }
{
    if !has_byte {
        return Ok(());
    }
    let last = kept.get(kept.len() - 1);
    kept.push(byte_behind(last))
}
