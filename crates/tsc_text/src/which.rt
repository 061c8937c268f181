//! What a reader of a format counts: each quantity has a limit.

/// A quantity with a limit.
#[derive(Clone, Copy, Debug, PartialEq, Eq)]
pub enum Which {
    /// The bytes of a name.
    NameBytes,
    /// The inputs.
    Inputs,
    /// The outputs.
    Outputs,
    /// The nodes.
    Nodes,
    /// The pins of a cover.
    Pins,
    /// The latches.
    Latches,
    /// The rows of a table.
    Rows,
    /// The states of a machine.
    States,
}
