//! Networks under a Berger or an m-out-of-n code: logic that is shared freely, with negations only at inputs. And `compose` and
//! `unordered_checker`, by which machines under these codes are written too.
//! Its main type is `PlannedNetlist` of `tsc_net`, a netlist with check bits and a checker, and its plan.
//! It stands on `gate_net`, `push_negations`, `berger_code`, `mofn_code`, `code_checkers`, `net_writing` and `tsc_net`.
//! Its main promise: what `unate_netlist` answers is a fault-secure netlist of its network; its names, its plan and its rails are
//! the stated ones, and nothing else stands in it.
//! Definitions: specs/UnateNetlist.antt and UnateLines (lines of gates that stand for outputs and checks).
#![tactic(auto)]

mod checking;
mod composing;
mod laws;
mod network;
mod planning;
mod roots;
mod synthesis;
mod unate_gates;

pub use checking::unordered_checker;
pub use composing::compose;
pub use laws::unate_is_secure;
pub use roots::SourceNames;
pub use synthesis::unate_netlist;
