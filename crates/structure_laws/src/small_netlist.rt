//! A small netlist that meets every definition.
ghost use Rattle.structure_laws.specs.SmallNetlist.{SmallIsCellSecure, SmallIsFaultSecure};

/// A netlist of five nodes is fault-secure for its source: the definitions are met by something.
pub fn the_small_netlist_is_fault_secure()
    ensures secure { SmallIsFaultSecure }
{}

/// It is secure against any one failing cell.
pub fn the_small_netlist_is_cell_secure()
    ensures secure { SmallIsCellSecure }
{}
