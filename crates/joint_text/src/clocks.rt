//! The words of a clock in the line of a latch.
ghost use Rattle.std.specs.Prelude.{◌≡◌};
ghost use Rattle.std.specs.Option.{option_copied};
ghost use Rattle.joint_text.specs.LineWords.{control_text, type_text};

use blif_read::{Clock, Edge};

/// The type of a clock, with a blank before it and one after it; nothing where there is no clock.
pub fn type_text(clock: Option<&Clock>) -> &'static [u8]
    ensures text { result.now ≡ type_text (option_copied clock.entry) }
{
    match clock {
        None => b"",
        Some(clock) => match clock.edge {
            Edge::Rising => b" re ",
            Edge::Falling => b" fe ",
        },
    }
}

/// The control of a clock; nothing where there is no clock.
pub fn control_text(clock: Option<&Clock>) -> &[u8]
    ensures text { result.now ≡ control_text (option_copied clock.entry) }
{
    match clock {
        None => b"",
        Some(clock) => clock.control.as_slice(),
    }
}
