//! What a command answers.
ghost use Rattle.std.specs.Prelude.{◌≡◌};

use refusals::Ending;
use tsc_io::Bytes;

/// What a command answers, and how it ends.
#[derive(Drop)]
pub struct Reply {
    /// What is written.
    pub bytes: Bytes,
    /// How the command ends.
    pub ending: Ending,
}

/// The answer of a command that finished what it was asked for.
pub fn finished(bytes: Bytes) -> Reply
    ensures reply { result ≡ record { bytes = bytes; ending = Ending.Finished } }
{
    Reply {
        bytes,
        ending: Ending::Finished,
    }
}
