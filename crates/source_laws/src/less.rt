//! Sources that allow less, of any kind.
ghost use Rattle.fault_secure.specs.Behaviour.{FollowsSource};
ghost use Rattle.fault_secure.specs.CellSecure.{IsCellSecure};
ghost use Rattle.fault_secure.specs.FaultSecure.{IsFaultSecure};
ghost use Rattle.point_laws.specs.Heard.{IsAlarmSecure};
ghost use Rattle.source_laws.specs.AllowsLess.{CarriesOver, RefinementsChain};

/// A netlist with its plan that follows a source follows each source that allows more under that plan; where it is secure against any one
/// failing cell, fault-secure or alarm-secure for the one, it is so for the other.
pub fn a_source_that_allows_less_is_followed()
    ensures follows { CarriesOver FollowsSource }
    ensures cells { CarriesOver IsCellSecure }
    ensures faults { CarriesOver IsFaultSecure }
    ensures alarms { CarriesOver IsAlarmSecure }
{}

/// Each source allows less than itself, and what allows less than a source that allows less than a third allows less than the third.
pub fn refinements_chain()
    ensures chain { RefinementsChain }
{}
