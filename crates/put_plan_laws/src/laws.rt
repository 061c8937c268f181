//! The laws on plan lines that are put into a section.
ghost use Rattle.put_plan_laws.specs.PutPlans.{AuditedNetlistsTakePlans, AuditedTextsTakePlans, PlanLinesChangeNoNetlist, PutPlanLinesAreAllowedAsANetlist, PutPlanLinesArePassedOver, PutPlanLinesKeepMappings};

/// A law: which netlist a section denotes is in the words of its other lines alone, whatever plan lines stand among them.
pub fn plan_lines_change_no_netlist()
    ensures same { PlanLinesChangeNoNetlist }
{}

/// A law: and whether nothing refuses it where its plan lines are passed over.
pub fn put_plan_lines_are_passed_over()
    ensures allowed { PutPlanLinesArePassedOver }
{}

/// A law: where the plan lines of a netlist's section are put into that of a netlist with its names, nothing refuses this section as a netlist
/// with its plan.
pub fn put_plan_lines_are_allowed_as_a_netlist()
    ensures allowed { PutPlanLinesAreAllowedAsANetlist }
{}

/// A law: so what was found of a section without these plan lines holds of it with them: its netlist reads as the first one mapped, by the
/// same blocks.
pub fn put_plan_lines_keep_mappings()
    ensures kept { PutPlanLinesKeepMappings }
{}

/// A law: and it is secure with the plan that it now states, for whatever the first netlist with its plan is secure for against any one cell.
/// It is so against any gates of one block that fail at once, any one cell, and each listed fault.
pub fn audited_netlists_take_plans()
    ensures secure { AuditedNetlistsTakePlans }
{}

/// A law: so it is where `audit mapped` answers yes to a text and the plan lines of its first netlist are put into the second one afterwards.
pub fn audited_texts_take_plans()
    ensures taken { AuditedTextsTakePlans }
{}
