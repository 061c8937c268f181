//! Draws from a generator.
ghost use Rattle.std.specs.Prelude.{◌≡◌, ◌<◌, ◌++◌, OnOk};
ghost use Rattle.machine_maker.specs.Drawn.{character, characters, draw, generator};

use rand_core::utils::NextWord;
use rand_pcg::Lcg64Xsh32;
use std::alloc::AllocError;
use tsc_io::Bytes;

/// The generator of a number.
pub(crate) fn generator(number: u64) -> Lcg64Xsh32
    ensures generator { result ≡ generator number }
{
    Lcg64Xsh32::new(number, 1)
}

/// The next word modulo `n`.
pub(crate) fn draw(rng: &mut Lcg64Xsh32, n: u32) -> u32
    requires some { 0 < n }
    ensures drawn { result ≡ (draw n rng.old).0 }
    ensures left { rng.new ≡ (draw n rng.old).1 }
    ensures below { result < n }
{
    rng.next_word() % n
}

/// Appends so many drawn characters, each `0`, `1` or `-`.
pub(crate) fn push_characters(
    text: &mut Bytes,
    rng: &mut Lcg64Xsh32,
    count: usize,
) -> Result<(), AllocError>
    ensures text { OnOk result (text.new ≡ text.old ++ (characters count rng.old).0) }
    ensures left { OnOk result (rng.new ≡ (characters count rng.old).1) }
{
    for _place in 0..count {
        text.push(character(draw(rng, 3)))?;
    }
    Ok(())
}

/// The character of a draw modulo 3.
fn character(drawn: u32) -> u8
    ensures character { result ≡ character drawn }
{
    match drawn {
        0 => b'0',
        1 => b'1',
        _ => b'-',
    }
}
