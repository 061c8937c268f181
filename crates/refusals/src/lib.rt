//! Why there may be no answer, and how a run ends.
//! Its main types are `Refusal`, why there is no answer, with `TextRefusal`, what a text is refused for, and `Status`, how a run ends.
//! It stands on the readers (of refutations too), for their errors, and on `tsc_io` and `tsc_text` for texts and numbers.
//! Its main promise: each refusal has its one status and its one line of notes.
//! Its definitions are in `specs/`: StatusCode for statuses, StatusOf and Notes for refusals.
#![tactic(auto)]

mod ending;
mod limit;
mod note;
mod refusal;
mod status;
mod text_refusal;

pub use ending::Ending;
pub use limit::{Limit, OwnLimit};
pub use note::{fixed_note, note_text};
pub use refusal::Refusal;
pub use status::Status;
pub use text_refusal::TextRefusal;
