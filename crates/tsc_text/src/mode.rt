//! How far a physical line is read.
ghost use Rattle.std.specs.Prelude.{◌≡◌, if◌then◌else◌};

/// What stands before the next byte in its physical line.
#[derive(Clone, Copy)]
pub enum Mode {
    /// Nothing, in a line that is not joined.
    Fresh,
    /// A `#` at the front.
    Hash,
    /// `#t` at the front.
    HashT,
    /// `#ts` at the front.
    HashTs,
    /// `#tsc` at the front.
    HashTsc,
    /// `#tsc ` at the front and bytes of a plan line.
    Plan,
    /// Bytes of a line that is no plan line.
    Words,
    /// Such bytes, and a `\`.
    Slash,
    /// Such bytes, a `\` and a CR.
    SlashReturn,
    /// Bytes with a `#`.
    Comment,
    /// Bytes with a `#` after a `\`.
    CommentJoined,
}

/// The mode after a `#` at the front: `next` where the byte is the next of `#tsc `.
pub fn matched(is_next: bool, next: Mode) -> Mode
    ensures mode { result ≡ (if is_next then next else Mode.Comment) }
{
    if is_next { next } else { Mode::Comment }
}
