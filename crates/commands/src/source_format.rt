//! The formats of a source.

/// The format of a source that a netlist is audited against.
#[derive(Clone, Copy, Debug, PartialEq, Eq)]
pub enum SourceFormat {
    /// BLIF: a network.
    Blif,
    /// KISS2: a machine.
    Kiss,
    /// PLA: a network with free bits.
    Pla,
}
