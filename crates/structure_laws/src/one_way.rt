//! One-way errors.
ghost use Rattle.structure_laws.specs.OneWay.{OneWayErrors};

/// In an acyclic netlist whose function negates inputs alone, a failing cell moves all nets of the function in one direction.
pub fn one_way_errors()
    ensures one_way { OneWayErrors }
{}
