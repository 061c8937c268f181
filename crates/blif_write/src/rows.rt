//! The lines of the rows of a cover.
ghost use Rattle.std.specs.Prelude.{◌≡◌, ◌≤◌, ◌++◌, OnOk, map};
ghost use Rattle.tsc_cover.specs.Cover.{literals};
ghost use Rattle.tsc_cover.specs.Row.{literals_of_each};
ghost use Rattle.tsc_cover.specs.Text.{text_of_literals};
ghost use Rattle.blif_write.specs.Layout.{row_line, row_lines};
ghost use Rattle.blif_write.specs.Steps.{after_line, after_lines};

use crate::words::{bit_byte, end_line, push_word};
use std::alloc::AllocError;
use tsc_cover::{Cover, Row01, char_at};
use tsc_io::Bytes;

/// Adds the lines of the rows of a cover.
pub fn push_cover(out: &mut Bytes, cover: &Cover) -> Result<(), AllocError>
    ensures lines { OnOk result (out.new ≡ after_lines out.old (row_lines cover.now)) }
{
    push_rows(out, cover.rows(), cover.width(), cover.on())
}

/// Adds the lines of rows over `width` pins.
fn push_rows(out: &mut Bytes, rows: &[Row01], width: usize, on: bool) -> Result<(), AllocError>
    requires wide { width ≤ 64 }
    ensures lines { OnOk result (out.new ≡ after_lines out.old (map (row_line on) (literals_of_each width rows.now))) }
{
    for row in rows {
        push_row(out, row, width, on)?;
    }
    Ok(())
}

/// Adds the line of a row over `width` pins.
fn push_row(out: &mut Bytes, row: &Row01, width: usize, on: bool) -> Result<(), AllocError>
    requires wide { width ≤ 64 }
    ensures line { OnOk result (out.new ≡ after_line out.old (row_line on (literals width row.now.care row.now.value))) }
{
    if width == 0 {
        out.push(bit_byte(on))?;
        end_line(out)
    } else {
        push_literals(out, row, width)?;
        push_word(out, &[bit_byte(on)])?;
        end_line(out)
    }
}

/// Adds the characters of a row over `width` pins.
fn push_literals(out: &mut Bytes, row: &Row01, width: usize) -> Result<(), AllocError>
    requires wide { width ≤ 64 }
    ensures literals { OnOk result (out.new ≡ out.old ++ text_of_literals (literals width row.now.care row.now.value)) }
{
    for pin in 0..width {
        out.push(char_at(row, width, pin))?;
    }
    Ok(())
}
