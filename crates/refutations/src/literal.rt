//! A literal: a variable, and the bit that it wants.
ghost use Rattle.std.specs.Prelude.{◌≡◌, ◌&&◌, nat_eq};
ghost use Rattle.refutations.specs.Clauses.{same};

/// A variable, counted from 0, or its negation.
#[derive(Clone, Copy, Debug)]
pub struct Literal {
    /// The variable.
    pub variable: u32,
    /// The bit with which the literal is true.
    pub wants: bool,
}

impl Literal {
    /// Whether the other one is the same literal.
    pub(crate) fn is(self, other: Literal) -> bool
        ensures same { result ≡ (nat_eq self.variable other.variable && same self.wants other.wants) }
    {
        self.variable == other.variable && self.wants == other.wants
    }
}
