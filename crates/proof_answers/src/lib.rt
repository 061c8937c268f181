//! What `audit proof` answers to a text: the exact audit's yes, from a refutation of the exact question, at any number of inputs.
//! Its main call is `audit_proof`.
//! It stands on `question_text` for a checker that holds the question, on `refutation_text`, which follows the refutation, on `question_answers` for why no question is asked, on `exact_answers` for what a yes says, and on the sections of a text (`text_sections`).
//! Its main promise: a yes is that of an exact audit, so the netlist is alarm-secure for the network; nothing of the text's refutation is trusted. An answer is missing only where the text is refused, a fault of the refutation included, or where memory is missing; where no question is asked, the refutation isn't looked at.
//! Its definitions are in `specs/`: Refused (what is refused), ProofReply (the answers), Laws (that the answer is determined), and of the code alone Sizes.
#![tactic(auto)]

mod auditing;
mod laws;
mod refuting;

pub use auditing::audit_proof;
pub use laws::{looked_at_where_asked, one_proof_reply};
