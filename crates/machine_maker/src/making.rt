//! The text of a machine that is drawn.
ghost use Rattle.std.specs.Prelude.{◌≡◌, ◌<◌, ◌≤◌, ◌∷◌, ◌++◌, length, IfOk, OnOk};
ghost use Rattle.std.specs.List.{flat_map};
ghost use Rattle.machine_maker.specs.Drawn.{drawn_row, drawn_rows};
ghost use Rattle.machine_maker.specs.MadeText.{made_text, number_digits, row_line, state_name};

use crate::drawing::{draw, generator, push_characters};
use rand_pcg::Lcg64Xsh32;
use std::alloc::{AllocError, Global};
use tsc_io::Bytes;
use tsc_text::push_number;

/// How many rows a machine has: four for each of 48 states.
const ROWS: usize = 192;

/// The KISS2 text of the machine that is drawn from `number`: 7 inputs, 8 outputs, 48 states and 192 rows.
///
/// # Errors
///
/// Want of memory.
pub fn make_text(alloc: Global, number: u64) -> Result<Bytes, AllocError>
    ensures text { IfOk result (λ text. text ≡ made_text number) }
    ensures short { IfOk result (λ text. length text ≤ 67108864) }
{
    let mut rng = generator(number);
    let mut text = Bytes::new(alloc);
    text.append(b".i 7\n.o 8\n")?;
    push_rows(&mut text, &mut rng)?;
    text.append(b".e\n")?;
    Ok(text)
}

/// Appends the lines of all rows.
fn push_rows(text: &mut Bytes, rng: &mut Lcg64Xsh32) -> Result<(), AllocError>
    ensures rows { OnOk result (text.new ≡ text.old ++ flat_map row_line (drawn_rows 192 rng.old).0) }
{
    for place in 0..ROWS {
        push_row(text, rng, place)?;
    }
    Ok(())
}

/// Appends the line of the row at a place.
fn push_row(text: &mut Bytes, rng: &mut Lcg64Xsh32, place: usize) -> Result<(), AllocError>
    ensures line { OnOk result (text.new ≡ text.old ++ row_line (drawn_row place rng.old).0) }
    ensures left { OnOk result (rng.new ≡ (drawn_row place rng.old).1) }
{
    push_digits(text, place % 4)?;
    push_characters(text, rng, 5)?;
    push_state(text, (place / 4) as u64)?;
    push_state(text, u64::from(draw(rng, 48)))?;
    text.append(b" ")?;
    push_characters(text, rng, 8)?;
    text.append(b"\n")
}

/// Appends the two binary digits of a row's number.
fn push_digits(text: &mut Bytes, number: usize) -> Result<(), AllocError>
    requires few { number < 4 }
    ensures digits { OnOk result (text.new ≡ text.old ++ number_digits number) }
{
    text.push(b'0' + (number / 2) as u8)?;
    text.push(b'0' + (number % 2) as u8)
}

/// Appends the name of a state after a blank.
fn push_state(text: &mut Bytes, state: u64) -> Result<(), AllocError>
    ensures name { OnOk result (text.new ≡ text.old ++ (32 ∷ state_name state)) }
{
    text.append(b" s")?;
    push_number(text, state)
}
