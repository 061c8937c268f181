//! Laws on plan lines that are put into the text of a mapped netlist after it was audited.
//! It has no type of its own: each law is a public function without a body.
//! It stands on `mapped_laws` (what plan lines state for a mapped netlist) and on `blif_read`, `mapping_audit` and `mapping_answers`, whose definitions it speaks of.
//! Its main promise: what was found of a netlist without plan lines holds of it with those of the netlist that it is mapped from (`put_plan_lines_keep_mappings`).
//! Its definitions are in `specs/`: PutPlans.
#![tactic(auto)]

mod laws;

pub use laws::{
    audited_netlists_take_plans, audited_texts_take_plans, plan_lines_change_no_netlist,
    put_plan_lines_are_allowed_as_a_netlist, put_plan_lines_are_passed_over,
    put_plan_lines_keep_mappings,
};
