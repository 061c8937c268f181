//! The numbers of nets and of names, and lists of them.

use tsc_io::{Bytes, Items};

/// A net of a netlist, by its number: inputs, then latch outputs, then the nets of nodes in text order.
#[derive(Clone, Copy, Debug, Default, PartialEq, Eq)]
pub struct NetId {
    /// How many nets stand before it.
    pub number: u32,
}

/// A name of some parts, by its number in the order in which it was first seen.
#[derive(Clone, Copy, Debug, Default, PartialEq, Eq)]
pub struct Name {
    /// How many names were seen before it.
    pub number: u32,
}

/// A list of nets.
pub type Nets = Items<NetId>;

/// A list of names.
pub type NameList = Items<Name>;

/// A list of bits.
pub type Bits = Items<bool>;

/// A list of places.
pub type PlaceList = Items<usize>;

/// A list of the texts of names.
pub type NameTexts = Items<Bytes>;
