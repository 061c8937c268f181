//! Text that goes out as it is made: it waits in a page of a fixed size, and goes to the sink a page at a time.
//! Its main type is `Page`, whose memory is had once; `print`, `print_all` and `finish` write over a sink and a page.
//! It stands on `tsc_io` for sinks, and on `itoa` for digits.
//! Its main promise: after any of these calls what the sink gained and what waits are the text printed so far; where the sink failed, the sink gained a first part of it. None of them takes memory.
//! Its definitions are in `specs/`: Output and Pieces.
#![tactic(auto)]

mod page;
mod piece;
mod printing;

pub use page::Page;
pub use piece::Piece;
pub use printing::{finish, print, print_all};
