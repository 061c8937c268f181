//! Whether a netlist with its plan, without a fault, follows its source at every listed state and input; if not, the first reason.
//! Its main call is `behaviour_reason`, which tries all points against a network, a machine or a source with free bits: 1,024 settle at once, 64 are judged at once.
//! It stands on `lane_sim` (the bench that settles), `code_lanes` (codewords, 64 at once), `monitored_nets` (what is watched), `tsc_net` (netlists, plans, machines) and `fault_secure` (what following a source is).
//! Its main promise: no reason exactly where the netlist follows its source (`FollowsSource`), and else the first one.
//! Its definitions are in `specs/`: Meaning (which sources benches can try), Breaks (what may be wrong in a step), Reason (the answer); Points, Trial and Lanes belong to the code. Points by their places are in `lane_sim`.
#![tactic(auto)]

mod behaviour;
mod bits;
mod codeword;
mod condition;
mod free_next;
mod lanes;
mod laws;
mod machine_lanes;
mod next_lanes;
mod next_state;
mod opening;
mod output_lanes;
mod outputs;
mod putting;
mod reading;
mod reason;
mod reference;
mod right_points;
mod room;
mod row_lanes;
mod search;
mod trial;
mod watch;

pub use behaviour::behaviour_reason;
pub use laws::behaviour_reason_is_determined;
pub use reason::BehaviourReason;
