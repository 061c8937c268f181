//! Which plans show a circuit.
ghost use Rattle.module_join.specs.JoinLaws.{PlanShows, ReadPlanShows, SeenPlanShows};

/// A law: a plan of a netlist shows it, and so does a plan of the netlist with its registers as further inputs. So the plan that is
/// read with a netlist does, also one that lists no states.
pub fn plans_show_netlists()
    ensures own { PlanShows }
    ensures seen { SeenPlanShows }
    ensures read { ReadPlanShows }
{}
