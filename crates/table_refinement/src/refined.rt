//! Tables that refine others.
ghost use Rattle.fault_secure.specs.Behaviour.{FollowsSource};
ghost use Rattle.fault_secure.specs.CellSecure.{IsCellSecure};
ghost use Rattle.fault_secure.specs.FaultSecure.{IsFaultSecure};
ghost use Rattle.point_laws.specs.Heard.{IsAlarmSecure};
ghost use Rattle.table_refinement.specs.TableRefinement.{IsEnough, RefinedTablesAllowLess, TextsAreNetworks};
ghost use Rattle.table_refinement.specs.SmallRefinement.{SmallTablesRefine};

/// Whatever networks answer as two tables say: where the one table refines the other, so do their sources.
pub fn refined_tables_allow_less()
    ensures less { RefinedTablesAllowLess }
{}

/// Where nothing refuses the lines of a table, its two networks answer as it says, over as many inputs and outputs.
pub fn texts_are_networks_of_their_tables()
    ensures networks { TextsAreNetworks }
{}

/// A netlist with a plan of version 2 that follows the source of a table follows that of each table that it refines. Where it is secure
/// against any one failing cell, fault-secure or alarm-secure for the one, it is so for the other.
pub fn refined_tables_are_enough()
    ensures follows { IsEnough FollowsSource }
    ensures cells { IsEnough IsCellSecure }
    ensures faults { IsEnough IsFaultSecure }
    ensures alarms { IsEnough IsAlarmSecure }
{}

/// A small table with a free output, and one that has 1 there, which refines it, and not the other way.
pub fn small_tables_refine()
    ensures small { SmallTablesRefine }
{}
