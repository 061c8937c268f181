//! 1,024 points of a netlist at once: what its nets have there, without a fault and with one.
//! Its main types are `Bench`, which settles at `Points` and then shows the lanes of the watched nets, and `FaultBench`, which tries faults and shows lanes under them.
//! It stands on `tsc_net` (netlists and faults), `tsc_cover`, `lane_rows` (which row a net has) and `tsc_pool` (the rows).
//! Its main promise: each bit of a watched lane is that of the one valuation that settles at its point, and no settle takes memory.
//! Its definitions are in `specs/`: Lanes (bits in words), Points, Places (points in order, each a listed state and an input), Bench (what a settled one shows), FaultBench (where two nets agree, lanes under a fault) and First.
#![tactic(auto)]

mod again;
mod bench;
mod changing;
mod fault_bench;
mod first_bit;
mod flat_rows;
mod gate;
mod kernel;
mod lane_points;
mod lanes;
mod many_pins;
mod masks;
mod place_lanes;
mod place_set;
mod places;
mod point;
mod point_copy;
mod point_lanes;
mod points;
mod program;
mod readers;
mod ready;
mod row_block;
mod shown_lanes;
mod state_lanes;
mod step_again;
mod steps;
mod two_again;
mod two_pins;

pub use bench::Bench;
pub use fault_bench::FaultBench;
pub use lane_points::first_point;
pub use lanes::{
    constant, differ, join, load, load_part, meet, signed, store, store_part, word_of,
};
pub use place_lanes::{places_of, places_with, width_of};
pub use places::{put_inputs, put_places};
pub use point::{Point, point_at};
pub use points::{Points, with_bit};
pub use state_lanes::state_word;
pub use steps::table_of;
