//! How a run ends.
ghost use Rattle.std.specs.Prelude.{◌≡◌};
ghost use Rattle.refusals.specs.StatusCode.{status_code};

/// How a run ends.
#[derive(Clone, Copy, Debug, PartialEq, Eq)]
pub enum Status {
    /// The answer was written.
    Done,
    /// The command says no, and this was written.
    AuditNo,
    /// The words have no meaning.
    Usage,
    /// The input is refused.
    BadInput,
    /// A quantity passes its limit.
    Limit,
    /// The source failed.
    ReadFault,
    /// The sink failed.
    WriteFault,
    /// Memory was missing.
    Memory,
}

impl Status {
    /// The exit status of the program.
    pub fn code(&self) -> u8
        ensures code { result ≡ status_code self.now }
    {
        match self {
            Status::Done => 0,
            Status::AuditNo => 1,
            Status::Usage => 2,
            Status::BadInput => 3,
            Status::Limit => 4,
            Status::ReadFault => 5,
            Status::WriteFault => 6,
            Status::Memory => 7,
        }
    }
}
