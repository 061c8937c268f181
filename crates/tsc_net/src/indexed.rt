//! A checked netlist beside the table of its names.
ghost use Rattle.std.specs.Prelude.{◌≡◌};
ghost use Rattle.std.specs.Option.{option_map};
ghost use Rattle.tsc_net.specs.Names.{find_text};

use crate::ids::NetId;
use crate::net_names::NetNames;
use crate::netlist::Netlist;
use std::marker::Model;

/// A checked netlist beside the table of its names, in which a name is found without going through all.
///
/// A crate whose public functions name it has all of the table's crates written into its library. So it stays inside: the netlist alone is handed on.
#[derive(Drop)]
pub struct IndexedNetlist {
    net: Netlist,
    names: NetNames,
}

impl Model for IndexedNetlist {
    ghost use Rattle.tsc_net.specs.NetlistOf.{NetlistOf};

    ghost Value = { NetlistOf };

    ghost view = { λ indexed. indexed.net };

    ghost use Rattle.std.specs.Prelude.{◌≡◌};

    ghost invariant = { λ indexed. indexed.names.nets ≡ indexed.net.names };
}

impl IndexedNetlist {
    /// A netlist beside the table of its names.
    pub(crate) fn new(net: Netlist, names: NetNames) -> IndexedNetlist
        requires names { names.nets ≡ net.names }
        ensures same { result ≡ net }
    {
        IndexedNetlist { net, names }
    }

    /// The netlist.
    pub fn netlist(&self) -> &Netlist
        ensures same { result.now ≡ self.now }
    {
        &self.net
    }

    /// The netlist alone, without the table.
    pub fn into_netlist(self) -> Netlist
        ensures same { result ≡ self }
    {
        self.net
    }

    /// The net with this name, if there is one.
    pub fn net(&self, name: &[u8]) -> Option<NetId>
        ensures net { option_map (λ net. net.number) result ≡ find_text self.now.names name.now }
    {
        self.names.find(name)
    }
}
