//! Laws on netlists that are mapped cover by cover: what their plan lines state, and that this is secure.
//! It has no type of its own: each law is a public function without a body.
//! It stands on `blif_read` (what plan lines state), `mapping_reading`, `mapping_audit` and `mapping_answers`, whose definitions it speaks of.
//! Its main promise: the plan lines of a netlist, read with a netlist that it is mapped to, state the plan that is secure there (`mapped_plans_are_secure`).
//! Its definitions are in `specs/`: MappedLaws, MappedReplies (of texts).
#![tactic(auto)]

mod laws;

pub use laws::{
    mapped_plans_are_secure, mapped_replies_are_determined, mapped_texts_are_secure,
    netlists_are_mapped_to_themselves, plan_lines_may_be_passed_over, plan_lines_stay_allowed,
    plan_refusals_are_in_plan_lines, plans_are_in_plan_lines, plans_move_by_name,
    put_plan_lines_are_allowed, put_plan_lines_are_secure, put_plan_lines_move, sections_are_built,
};
