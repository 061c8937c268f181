//! Where a word of a text stands, and how a line ends.
ghost use Rattle.std.specs.Prelude.{◌≡◌, ◌^◌, ◌<◌, ◌≤◌};
ghost use Rattle.tsc_text.specs.Kept.{behind};
ghost use Rattle.tsc_text.specs.Row.{Mark};

use std::marker::Model;

/// Where a word stands in a text: from the byte at `start` up to the one before `past`.
#[derive(Clone, Copy)]
pub struct Place {
    /// The place of its first byte.
    pub start: u32,
    /// The place after its last byte.
    pub past: u32,
}

/// The place of a word of one byte that stands one byte after another word.
pub fn byte_behind(place: Place) -> Place
    requires low { place.past ≤ 2 ^ 26 }
    ensures behind { result ≡ behind place }
{
    Place {
        start: place.past + 1,
        past: place.past + 2,
    }
}

/// How a line of a text ends. Its kept places are those after the ones of the line before, up to the one before `past`.
///
/// It takes 4 bytes: four times `past`, two more where it has one word more, and one more where it is a plan line.
#[derive(Drop)]
pub struct LineMark {
    code: u32,
}

impl Model for LineMark {
    ghost use Rattle.std.specs.Prelude.{◌/◌, ◌%◌, ◌==◌};
    ghost use Rattle.tsc_text.specs.Row.{Mark};

    ghost Value = { Mark };

    ghost view = { λ mark. record { is_plan = mark.code % 2 == 1; has_byte = mark.code / 2 % 2 == 1; past = mark.code / 4 } };
}

impl LineMark {
    /// The end of a line, where it and all lines before it keep `past` places.
    pub fn new(is_plan: bool, has_byte: bool, past: u32) -> LineMark
        requires few { past < 2 ^ 30 }
        ensures mark { result ≡ record { is_plan = is_plan; has_byte = has_byte; past = past } }
    {
        LineMark {
            code: past * 4 + u32::from(has_byte) * 2 + u32::from(is_plan),
        }
    }

    /// Whether it is a plan line.
    pub fn is_plan(&self) -> bool
        ensures plan { result ≡ self.now.is_plan }
    {
        self.code % 2 == 1
    }

    /// Whether it has one word more than kept places: one byte, one byte after the last of them.
    pub fn has_byte(&self) -> bool
        ensures byte { result ≡ self.now.has_byte }
    {
        self.code / 2 % 2 == 1
    }

    /// How many places this line and all lines before it keep.
    pub fn past(&self) -> u32
        ensures past { result ≡ self.now.past }
    {
        self.code / 4
    }
}
