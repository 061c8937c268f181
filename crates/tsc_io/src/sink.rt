//! What bytes are written to.
ghost use Rattle.std.specs.Prelude.{ℕ, ◌<◌, ◌≤◌, List, length, take, IfOk, OnErr, Option};
ghost use Rattle.std.specs.Io.KnownBytes.{Appends, Keeps};
ghost use Rattle.tsc_io.specs.Counts.{Rose};

use crate::failed::Failed;

/// A device that takes bytes.
pub trait Sink {
    // The bytes written so far, where the sink tells them.
    ghost written: { Self → Option (List ℕ) };

    // How many faults there were, up to 2^64 - 1. It never falls.
    ghost faults: { Self → ℕ };

    /// Writes the front of `bytes`, and answers how many bytes were taken: one at least.
    ///
    /// # Errors
    ///
    /// The device failed. It took no byte.
    fn write(&mut self, bytes: &[u8]) -> Result<usize, Failed>
        requires { 0 < length bytes.now }

        // At Ok what was written gained the bytes that were taken.
        ensures some { IfOk result (λ count. 0 < count) }
        ensures within { IfOk result (λ count. count ≤ length bytes.now) }
        ensures gained { IfOk result (λ count. Appends (written self.old) (written self.new) (take count bytes.now)) }

        // It fails only where the count of faults rose, and then nothing is gained.
        ensures failed { OnErr result (Rose (faults self.old) (faults self.new)) }
        ensures kept { OnErr result (Keeps (written self.old) (written self.new)) }
        ensures faults_stay { faults self.old ≤ faults self.new };
}
