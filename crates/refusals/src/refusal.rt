//! Why there is no answer.
ghost use Rattle.std.specs.Prelude.{◌≡◌};
ghost use Rattle.refusals.specs.StatusOf.{status_of};

use crate::limit::OwnLimit;
use crate::status::Status;
use crate::text_refusal::TextRefusal;
use std::alloc::AllocError;

/// Why there is no answer.
#[derive(Drop)]
pub enum Refusal {
    /// The words have no meaning.
    Usage,
    /// The source failed.
    ReadFault,
    /// The sink failed.
    WriteFault,
    /// Memory was missing.
    Memory(AllocError),
    /// More than 67,108,864 bytes came.
    TooLong,
    /// The text is refused.
    Text(TextRefusal),
    /// Nothing refuses the text, but it passes a limit of the command.
    Beyond(OwnLimit),
}

impl Refusal {
    /// How a run that is refused by this ends.
    pub fn status(&self) -> Status
        ensures status { result ≡ status_of self.now }
    {
        match self {
            Refusal::Usage => Status::Usage,
            Refusal::ReadFault => Status::ReadFault,
            Refusal::WriteFault => Status::WriteFault,
            Refusal::Memory(_) => Status::Memory,
            Refusal::TooLong | Refusal::Beyond(_) => Status::Limit,
            Refusal::Text(refusal) => refusal.status(),
        }
    }
}
