//! Test vectors: for each listed fault of a netlist the first point that exposes it, or that none does.
//! Its main call is `vectors`, which tries the faults at the points in order, 1,024 at once.
//! It stands on `lane_sim` (the bench of faults), `net_cones` (cones) and `tsc_net` (netlists, plans, faults).
//! Its main promise: the point is the first exposing one, and there is none exactly where no listed state and input exposes the fault.
//! Its definitions are in `specs/`: Vectors (what a list of tests says), Trial (the points that are put, the places that were found) and Unheard (the faults that no rail hears). Points are counted in `fault_secure`'s Exposing, and the point at a place is `lane_sim`'s.
#![tactic(auto)]

mod counting;
mod exposing;
mod laws;
mod places;
mod putting;
mod search;
mod test_list;
mod test_vectors;
mod trial;
mod unheard;
mod vec_error;

pub use lane_sim::Point;
pub use laws::tests_decide_self_testing;
pub use test_list::Tests;
pub use test_vectors::vectors;
pub use vec_error::VecError;
