//! A small netlist that meets `IsTwin`, `IsWatchOf` and `IsRegisterPlanOf`.
ghost use Rattle.register_laws.specs.SmallTwin.{SmallIsPlanned, SmallIsTwin, SmallIsWatched, MisreadIsUnwatched, SmallTwinIsFaultSecure, SmallTwinIsSecure};

/// A netlist of two registers and six nodes is a twin, and so secure against any one failing cell and each listed fault. Its watch meets
/// `IsWatchOf`, and its plan `IsRegisterPlanOf`.
pub fn the_small_twin_is_secure()
    ensures twin { SmallIsTwin }
    ensures planned { SmallIsPlanned }
    ensures watched { SmallIsWatched }
    ensures cells { SmallTwinIsSecure }
    ensures faults { SmallTwinIsFaultSecure }
{}

/// Where the check of its watch is worked out from the own register, and not from the copy, the check doesn't meet `IsWatchOf`.
pub fn watches_read_copies()
    ensures unwatched { MisreadIsUnwatched }
{}
