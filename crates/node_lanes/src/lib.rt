//! What nodes make of the bits of nets at 64 points at once: one word per net, whose bit p is the net's bit at point p.
//! Its main call is `settle_words`, which sets the nets of some nodes, one after another.
//! It stands on `lane_sim` (words of bits), `code_lanes` (the bits of words at a point), `tsc_net` (netlists), `tsc_cover` and `tsc_bits` (covers and bits).
//! Its main promise: at each point a node's net has what its cover makes of the bits of the nets that it reads.
//! Its definitions are in `specs/`: Settling (bits that are put at nets, and nodes that are set one after another).
#![tactic(auto)]

mod covers;
mod settling;

pub use covers::cover_word;
pub use settling::{put_words, settle_words};
