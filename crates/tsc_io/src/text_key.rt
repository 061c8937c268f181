//! Keys for tables of names: a hasher that is begun with the text in which the names stand.
ghost use Rattle.std.specs.Prelude.{◌≡◌};
ghost use Rattle.std.specs.Hash.DefaultHasher as sip;
ghost use Rattle.sha2.specs.Sha256.{sha256};

use sha2::{Digest, Sha256};
use std::hash::{BuildHasher, DefaultHasher, Hasher};

/// The key of a table of names that a text fills: SipHash-1-3, begun with the SHA-256 of that text.
///
/// Where the hash of a name is known, a text can be filled with names that collide, and each look-up then goes through all of
/// them (hash flooding). SipHash ("SipHash: a fast short-input PRF", by Aumasson and Bernstein) was made for tables that are
/// keyed against it. A random key would do, but the program is a function of its text. So the key is the digest of the text
/// (SHA-256 of FIPS 180-4): whoever changes a name so that it collides has changed the key too. No answer depends on a key,
/// only time does.
#[derive(Clone, Copy)]
pub struct TextKey {
    /// The hasher with which the hash of each name begins.
    pub begun: DefaultHasher,
}

impl TextKey {
    /// The key of a text. It takes no memory, and reads the text once.
    pub fn of(text: &[u8]) -> TextKey
        ensures key { result.begun ≡ sip.write sip.initial (sha256 text.now) }
    {
        let digest = Sha256::digest(text);
        let mut begun = DefaultHasher::new();
        begun.write(&digest);
        TextKey { begun }
    }
}

impl BuildHasher for TextKey {
    type Hasher = DefaultHasher;

    ghost build_hasher = { λ key. key.begun };

    fn build_hasher(&self) -> DefaultHasher {
        self.begun
    }
}
