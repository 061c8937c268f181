//! The two phases of a line.
ghost use Rattle.std.specs.Prelude.{◌≡◌};

use gate_net::Line;

/// A line with the value of another, and one with the other value.
#[derive(Clone, Copy)]
pub struct Phases {
    /// The line with the value itself.
    pub positive: Line,
    /// The line with its negation.
    pub negative: Line,
}

impl Phases {
    /// The phases of the negated line.
    pub fn negated(self) -> Phases
        ensures positive { result.positive ≡ self.negative }
        ensures negative { result.negative ≡ self.positive }
    {
        Phases {
            positive: self.negative,
            negative: self.positive,
        }
    }
}
