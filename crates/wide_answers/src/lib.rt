//! What `audit wide` answers to a text: the verdict on the netlist without latches after a network, whatever the number of inputs.
//! Its main call is `audit_widely`.
//! It stands on `wide_audit`, which decides, on `netlist_answers` for what is read and for words of a line, and on the sections of a text (`text_sections`).
//! Its main promise: a yes says that the netlist is secure for the network, a no tells the first reason. An answer is missing only where the text is refused, where the functions that are stated have more different cofactors than there are rows, or where memory is missing.
//! Its definitions are in `specs/`: WideSections (what the text denotes, and what is refused of it), WideText (the line), WideReply (the answers).
#![tactic(auto)]

mod answering;
mod judged;
mod wide_line;

pub use answering::audit_widely;
