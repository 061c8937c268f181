//! What the lines of a table's text share, whatever its format: counts, names, and why a line is refused.
//! Its main call is `read_names`, which gives the names of inputs and outputs.
//! It stands on `tsc_text` for lines and on `tsc_net` for names.
//! Its main promise: names are those that the lines give, else numbered ones, and are different; a line's fault is exactly stated.
//! Its definitions are in `specs/`: LineFaults and FirstFault say why a line is refused, NamesText what names are given.
#![tactic(auto)]

mod cause;
mod counts;
mod names;
mod words;

pub use cause::{Cause, LineFault};
pub use counts::{MOST_ROWS, count_fault, is_long, is_pattern, long_name, number_in, read_fault};
pub use names::{NameLines, Names, NamesError, read_names};
pub use words::{is_word, word_or_empty};
