//! Reading all bytes of a text.
ghost use Rattle.std.specs.Prelude.{◌≡◌, ◌^◌, ◌<◌, ◌≤◌, None, length, IfOk, IfErr, OnOk};
ghost use Rattle.tsc_text.specs.Bytes.{bad_line};
ghost use Rattle.tsc_text.specs.Scan.{at_start, scan_of};
ghost use Rattle.tsc_text.specs.TextError.{Refuses};

use crate::byte::is_allowed_byte;
use crate::error::TextError;
use crate::room::{count_feeds, most_words};
use crate::scan::Scan;
use std::alloc::Global;

/// The greatest number of bytes of a text that a command reads.
pub const LONGEST: usize = 67_108_864;

/// Reads a text.
pub fn scan_text(alloc: Global, text: &[u8]) -> Result<Scan, TextError>
    requires { length text.now ≤ LONGEST }
    ensures read { IfOk result (λ scan. scan ≡ scan_of text.now) }
    ensures allowed { OnOk result (bad_line text.now ≡ None) }
    ensures few { IfOk result (λ scan. length scan.table.places < 2 ^ 32) }
    ensures refused { IfErr result (Refuses text.now) }
{
    let words = most_words(text);
    let lines = words.min(count_feeds(text) + 1);
    let mut scan = Scan::with_room(alloc, words, lines).map_err(TextError::Memory)?;
    scan_bytes(&mut scan, text)?;
    Ok(scan)
}

/// Reads all bytes of a text, one by one, from the state before the first.
fn scan_bytes(scan: &mut Scan, text: &[u8]) -> Result<(), TextError>
    requires short { length text.now ≤ LONGEST }
    requires start { scan.old ≡ at_start }
    ensures read { OnOk result (scan.new ≡ scan_of text.now) }
    ensures allowed { OnOk result (bad_line text.now ≡ None) }
    ensures few { OnOk result (length scan.new.table.places < 2 ^ 32) }
    ensures refused { IfErr result (Refuses text.now) }
{
    for (at, byte) in text.iter().enumerate() {
        if !is_allowed_byte(*byte) {
            return Err(TextError::BadByte {
                line: scan.number as usize,
            });
        }
        scan.step(at as u32, *byte).map_err(TextError::Memory)?;
    }
    scan.finish(text.len() as u32).map_err(TextError::Memory)
}
