//! Exposing points in two small netlists.
ghost use Rattle.structure_laws.specs.SmallExposing.{IdlePinIsExposedNowhere, PinIsFirstExposed, SmallIsSelfTesting};

/// In the netlist of five nodes, the pin at which y reads a, held at 1, is first exposed at the input 01: the definition of a first
/// exposing point computes.
pub fn a_pin_is_first_exposed()
    ensures first { PinIsFirstExposed }
{}

/// The netlist of five nodes is self-testing: each of its 24 listed faults has an exposing point.
pub fn the_small_netlist_is_self_testing()
    ensures exposed { SmallIsSelfTesting }
{}

/// A fault of a pin that no row looks at is exposed nowhere.
pub fn an_idle_pin_is_exposed_nowhere()
    ensures nowhere { IdlePinIsExposedNowhere }
{}
