//! What bytes are read from.
ghost use Rattle.std.specs.Prelude.{◌≡◌, ℕ, ◌+◌, ◌<◌, ◌≤◌, List, length, take, IfOk, OnErr, Option};
ghost use Rattle.std.specs.Io.KnownBytes.{Consumes, IsAtEnd, Keeps};
ghost use Rattle.tsc_io.specs.Counts.{Rose};

use crate::failed::Failed;

/// A device that gives bytes.
pub trait Source {
    // The bytes that reads will give from here on, where the source tells them.
    ghost left: { Self → Option (List ℕ) };

    // How many faults there were, up to 2^64 - 1. It never falls.
    ghost faults: { Self → ℕ };

    // How many calls of `read` were made, where the source counts them. It never falls.
    ghost calls: { Self → ℕ };

    /// Reads into the front of `into`, and answers how many bytes came. No byte is the end of input.
    ///
    /// # Errors
    ///
    /// The device failed. No byte is lost.
    fn read(&mut self, into: &mut [u8]) -> Result<usize, Failed>
        requires { 0 < length into.old }

        // At Ok the first bytes left came, none of them only where none are left.
        ensures within { IfOk result (λ count. count ≤ length into.new) }
        ensures came { IfOk result (λ count. Consumes (left self.old) (left self.new) (take count into.new)) }
        ensures end { IfOk result (λ count. count ≡ 0 → IsAtEnd (left self.new)) }

        // It fails only where the count of faults rose, and then no byte is lost.
        ensures failed { OnErr result (Rose (faults self.old) (faults self.new)) }
        ensures kept { OnErr result (Keeps (left self.old) (left self.new)) }
        ensures faults_stay { faults self.old ≤ faults self.new }

        // One call is counted at most.
        ensures calls_stay { calls self.old ≤ calls self.new }
        ensures one_call { calls self.new ≤ calls self.old + 1 };
}
