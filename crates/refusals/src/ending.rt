//! How a command ends that has an answer.

/// How a command ends that has an answer.
#[derive(Clone, Copy, Debug, PartialEq, Eq)]
pub enum Ending {
    /// It finished what it was asked for.
    Finished,
    /// It says no: an audit, or a question that isn't asked.
    Rejected,
}
