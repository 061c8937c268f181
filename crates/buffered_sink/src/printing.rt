//! Printing to a sink through a page.
ghost use Rattle.std.specs.Prelude.{◌≡◌, ◌+◌, ◌≤◌, ◌⊎◌, [], length, OnOk};
ghost use Rattle.std.specs.Fmt.{decimal};
ghost use Rattle.buffered_sink.specs.Output.{Prints, output};
ghost use Rattle.buffered_sink.specs.Pieces.{piece_text, pieces_text};

use crate::page::{PAGE_BYTES, Page};
use crate::piece::Piece;
use itoa::Buffer;
use tsc_io::{Sink, WriteFault, write_all};

/// Prints a piece of any length. It takes no memory.
///
/// # Errors
///
/// The sink failed.
pub fn print<K: Sink>(sink: &mut K, page: &mut Page, piece: &[u8]) -> Result<(), WriteFault>
    ensures printed { Prints result (output (K.written sink.old) (K.faults sink.old) page.old) (output (K.written sink.new) (K.faults sink.new) page.new) piece.now }
{
    make_room(sink, page, piece.len())?;
    if piece.len() > PAGE_BYTES {
        return write_all(sink, piece);
    }
    page.hold(piece);
    Ok(())
}

/// Writes what waits where there is no room for `count` bytes more. Then there is room for them, or nothing waits.
fn make_room<K: Sink>(sink: &mut K, page: &mut Page, count: usize) -> Result<(), WriteFault>
    ensures printed { Prints result (output (K.written sink.old) (K.faults sink.old) page.old) (output (K.written sink.new) (K.faults sink.new) page.new) [] }
    ensures room { OnOk result ((length page.new + count ≤ 65536) ⊎ (page.new ≡ [])) }
{
    if count > page.room() {
        finish(sink, page)
    } else {
        Ok(())
    }
}

/// Prints the decimal digits of `value`, without leading zeros.
fn print_number<K: Sink>(sink: &mut K, page: &mut Page, value: u64) -> Result<(), WriteFault>
    ensures printed { Prints result (output (K.written sink.old) (K.faults sink.old) page.old) (output (K.written sink.new) (K.faults sink.new) page.new) (decimal value) }
{
    let mut digits = Buffer::new();
    print(sink, page, digits.format(value).as_bytes())
}

/// Prints the pieces of a line, one after the other.
///
/// # Errors
///
/// The sink failed.
pub fn print_all<K: Sink>(sink: &mut K, page: &mut Page, pieces: &[Piece]) -> Result<(), WriteFault>
    ensures printed { Prints result (output (K.written sink.old) (K.faults sink.old) page.old) (output (K.written sink.new) (K.faults sink.new) page.new) (pieces_text pieces.now) }
{
    for piece in pieces {
        print_piece(sink, page, *piece)?;
    }
    Ok(())
}

/// Prints one piece.
fn print_piece<K: Sink>(sink: &mut K, page: &mut Page, piece: Piece) -> Result<(), WriteFault>
    ensures printed { Prints result (output (K.written sink.old) (K.faults sink.old) page.old) (output (K.written sink.new) (K.faults sink.new) page.new) (piece_text piece.entry) }
{
    match piece {
        Piece::Text(bytes) => print(sink, page, bytes),
        Piece::Number(value) => print_number(sink, page, value),
    }
}

/// Writes what waits. Then nothing waits.
///
/// # Errors
///
/// The sink failed.
pub fn finish<K: Sink>(sink: &mut K, page: &mut Page) -> Result<(), WriteFault>
    ensures printed { Prints result (output (K.written sink.old) (K.faults sink.old) page.old) (output (K.written sink.new) (K.faults sink.new) page.new) [] }
    ensures empty { OnOk result (page.new ≡ []) }
{
    write_all(sink, page.as_slice())?;
    page.clear();
    Ok(())
}
