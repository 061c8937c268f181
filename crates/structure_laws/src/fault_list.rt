//! The fault list.
ghost use Rattle.structure_laws.specs.FaultList.{HoldsNoneTwice, HoldsTheListed};

/// The fault list of a circuit, which `Faults::of` answers, holds a fault exactly where `is_listed` says yes, and none twice:
/// so it gives each listed fault once, and its length is their number.
pub fn each_listed_fault_once()
    ensures listed { HoldsTheListed }
    ensures once { HoldsNoneTwice }
{}
