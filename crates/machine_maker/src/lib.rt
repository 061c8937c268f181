//! A large state machine from a number: the KISS2 text that is drawn with a stated generator, and what is told of the machine.
//! Its main call is `make_text`.
//! It stands on `rand_pcg` for the generator, on `rand_core` for the call that takes its words, and on `tsc_net` for machines.
//! Its main promise: the text is a function of the number alone, over the generator's own stated step.
//! Its definitions are in `specs/`: Drawn (what is drawn, in order), MadeText (how it is written), Counts (over all points), Summary.
#![tactic(auto)]

mod counting;
mod drawing;
mod laws;
mod making;
mod summary;

pub use counting::{Counts, counts_of};
pub use laws::made_texts_are_machines;
pub use making::make_text;
pub use summary::{Figures, summary_text};
