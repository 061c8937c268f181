//! Netlists by names, checked netlists, plans, faults and machines.
//! Its main type is `Netlist`, a checked one, which `Parts::build` makes of `Parts`, a netlist by names.
//! It stands on `fault_secure` (what a circuit and a plan are), `tsc_cover` and `tsc_io`.
//! Its main promise: a netlist states exactly its parts, has no ring, and its faults are the single stuck-at faults, each once.
//! Its definitions are in `specs/`: Named and Names (netlists by names), NetFault (why one is refused), NetlistOf, Order, Fault, MachineView and Overlap (machines), SourceView (what a netlist is judged by).
#![tactic(auto)]

mod build;
mod fault;
mod faults;
mod fresh;
mod ids;
mod indexed;
mod machine;
mod names;
mod net_error;
mod net_names;
mod netlist;
mod node_list;
mod order;
mod parts;
mod plan;
mod planned;
mod ring;
mod sought;
mod source_meaning;
mod spans;
mod state_list;
mod texts;
mod waiters;
mod when;

pub use fault::Fault;
pub use fault_secure::Code;
pub use faults::{Faults, fault_count, is_listed, pins_of};
pub use ids::{Bits, Name, NameList, NameTexts, NetId, Nets, PlaceList};
pub use indexed::IndexedNetlist;
pub use machine::{Answer, Machine, MachineRow, MachineRows};
pub use names::NameTable;
pub use net_error::NetError;
pub use netlist::{LatchView, Netlist};
pub use parts::Parts;
pub use plan::{Group, GroupList, Plan};
pub use planned::PlannedNetlist;
pub use source_meaning::{Loose, SourceMeaning};
pub use state_list::StateList;
pub use when::{Span, When};
