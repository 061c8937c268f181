//! The lines of the rows of a cover.
ghost use Rattle.std.specs.Prelude.{◌≡◌, ◌≤◌, map};
ghost use Rattle.buffered_sink.specs.Output.{Prints, output};
ghost use Rattle.tsc_cover.specs.Cover.{literals};
ghost use Rattle.tsc_cover.specs.Row.{literals_of_each};
ghost use Rattle.tsc_cover.specs.Text.{text_of_literals};
ghost use Rattle.tsc_text.specs.Written.{line_text, text_of};
ghost use Rattle.blif_write.specs.Layout.{row_line, row_lines};
ghost use Rattle.joint_text.specs.LineWords.{row_end};

use buffered_sink::{Page, print};
use tsc_cover::{Cover, Row01, char_at};
use tsc_io::{Sink, WriteFault};

/// Prints the lines of the rows of a cover.
pub fn print_cover<K: Sink>(sink: &mut K, page: &mut Page, cover: &Cover) -> Result<(), WriteFault>
    ensures printed { Prints result (output (K.written sink.old) (K.faults sink.old) page.old) (output (K.written sink.new) (K.faults sink.new) page.new) (text_of (row_lines cover.now)) }
{
    print_rows(sink, page, cover.rows(), cover.width(), cover.on())
}

/// Prints the lines of rows over `width` pins.
fn print_rows<K: Sink>(
    sink: &mut K,
    page: &mut Page,
    rows: &[Row01],
    width: usize,
    on: bool,
) -> Result<(), WriteFault>
    requires wide { width ≤ 64 }
    ensures printed { Prints result (output (K.written sink.old) (K.faults sink.old) page.old) (output (K.written sink.new) (K.faults sink.new) page.new) (text_of (map (row_line on) (literals_of_each width rows.now))) }
{
    for row in rows {
        print_row(sink, page, row, width, on)?;
    }
    Ok(())
}

/// Prints the line of a row over `width` pins.
fn print_row<K: Sink>(
    sink: &mut K,
    page: &mut Page,
    row: &Row01,
    width: usize,
    on: bool,
) -> Result<(), WriteFault>
    requires wide { width ≤ 64 }
    ensures printed { Prints result (output (K.written sink.old) (K.faults sink.old) page.old) (output (K.written sink.new) (K.faults sink.new) page.new) (line_text (row_line on (literals width row.now.care row.now.value))) }
{
    print_literals(sink, page, row, width)?;
    print(sink, page, row_end(width, on))
}

/// The end of a row's line: the bit of the set, after a blank where there is a pin.
fn row_end(width: usize, on: bool) -> &'static [u8]
    ensures end { result.now ≡ row_end width on }
{
    match (width == 0, on) {
        (true, true) => b"1\n",
        (true, false) => b"0\n",
        (false, true) => b" 1\n",
        (false, false) => b" 0\n",
    }
}

/// Prints the characters of a row over `width` pins.
fn print_literals<K: Sink>(
    sink: &mut K,
    page: &mut Page,
    row: &Row01,
    width: usize,
) -> Result<(), WriteFault>
    requires wide { width ≤ 64 }
    ensures printed { Prints result (output (K.written sink.old) (K.faults sink.old) page.old) (output (K.written sink.new) (K.faults sink.new) page.new) (text_of_literals (literals width row.now.care row.now.value)) }
{
    for pin in 0..width {
        print(sink, page, &[char_at(row, width, pin)])?;
    }
    Ok(())
}
