//! Kinds of bytes.
ghost use Rattle.std.specs.Prelude.{◌≡◌};
ghost use Rattle.tsc_text.specs.Bytes.{begins_with_dot, is_allowed, is_blank};

/// Whether a text may hold a byte.
pub fn is_allowed_byte(byte: u8) -> bool
    ensures allowed { result ≡ is_allowed byte }
{
    (b' ' <= byte && byte <= b'~') || byte == b'\t' || byte == b'\r' || byte == b'\n'
}

/// Whether a byte parts words.
pub fn is_blank_byte(byte: u8) -> bool
    ensures blank { result ≡ is_blank byte }
{
    byte == b' ' || byte == b'\t' || byte == b'\r'
}

/// Whether a word begins with `.`.
pub fn begins_with_dot(word: &[u8]) -> bool
    ensures dot { result ≡ begins_with_dot word.now }
{
    match word {
        [] => false,
        [first, ..] => *first == b'.',
    }
}
