//! Points that are made those of another list.
ghost use Rattle.std.specs.Prelude.{◌≡◌};

use crate::points::Points;

impl Points {
    /// Makes these the other points, which have as many inputs and latches. It takes no memory.
    pub(crate) fn copy_from(&mut self, other: &Points)
        requires inputs { other.now.inputs ≡ self.old.inputs }
        requires latches { other.now.latches ≡ self.old.latches }
        ensures same { self.new ≡ other.now }
    {
        self.words.copy_from_slice(other.words());
    }
}
