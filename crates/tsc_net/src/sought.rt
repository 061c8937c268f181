//! A text that is looked for among kept ones.
ghost use Rattle.std.proofs.Common.{ap};
ghost use Rattle.std.specs.Cmp.{on_equiv, on_per, partial_equiv_from_equiv};
ghost use Rattle.std.specs.Cmp.Lexicographic.{bytes_decides, nat_list_eq_equiv};
ghost use Rattle.std.specs.Hash as fed;
ghost use Rattle.std.specs.Str.{bytes_eq};

use indexmap::Equivalent;
use smallvec::SmallVec;
use std::hash::{Hash, Hasher};

/// A text to look for. It is hashed and compared as a kept text is, so that to look for it takes no memory.
#[derive(Clone, Copy)]
pub(crate) struct Sought<'a> {
    /// The bytes of the text.
    pub text: &'a [u8],
}

impl<'a> PartialEq for Sought<'a> {
    ghost eq = { λ s t. bytes_eq s.text.now t.text.now };

    ghost laws = { on_per (λ s. s.text.now) (partial_equiv_from_equiv nat_list_eq_equiv) };

    fn eq(&self, other: &Self) -> bool {
        self.text == other.text
    }
}

impl<'a> Eq for Sought<'a> {
    ghost laws = { on_equiv (λ s. s.text.now) nat_list_eq_equiv };
}

impl<'a> Hash for Sought<'a> {
    ghost hash_input = { λ s. fed.slice fed.u8 s.text.now };

    ghost respects_eq = { λ x y h. ap (fed.slice fed.u8) ((bytes_decides x.text.now y.text.now).0 h) };

    fn hash<H: Hasher>(&self, state: &mut H) {
        self.text.hash(state);
    }
}

impl<'a> Equivalent<SmallVec<u8, 16>> for Sought<'a> {
    ghost equivalent = { λ q k. bytes_eq q.text.now k.items };

    ghost respects_hash = { λ q k h. ap (fed.slice fed.u8) ((bytes_decides q.text.now k.items).0 h) };

    ghost respects_eq = { λ q x y. nat_list_eq_equiv.congr q.text.now x.items y.items };

    fn equivalent(&self, key: &SmallVec<u8, 16>) -> bool {
        self.text == key.as_slice()
    }
}
