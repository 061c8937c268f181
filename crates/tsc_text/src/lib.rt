//! The lines of a text, their sections, and the numbers that words are.
//! Its main type is `Lines`, all lines of a text, which borrows the text and keeps the places of its words.
//! It stands on `tsc_io`, for its lists and the keys of texts.
//! Its main promise: `Lines::of` gives exactly the lines of the text, or the first line with a byte that a text may not hold.
//! Its definitions are in `specs/`: `Lines` says what the lines of a text are, `Written` how they are written.
#![tactic(auto)]

mod byte;
mod decimals;
mod error;
mod jumps;
mod last_byte;
mod laws;
mod line_list;
mod line_table;
mod lines;
mod mode;
mod place_list;
mod places;
mod reading;
mod room;
mod scan;
mod section;
mod section_lines;
mod text_line;
mod which;

pub use byte::begins_with_dot;
pub use decimals::{number, push_number};
pub use error::TextError;
pub use laws::{lines_can_be_written, texts_in_a_row, written_lines_are_read};
pub use lines::Lines;
pub use reading::LONGEST;
pub use section::{End, Section};
pub use section_lines::SectionLines;
pub use text_line::TextLine;
pub use which::Which;
