//! What `audit exact` answers to a text: whether the netlist after a source follows it, and no one failing cell makes a wrong output or next bit without an alarm.
//! Its main call is `audit_exactly`.
//! It stands on `exact_audit`, which decides, on `netlist_answers` for what an audit reads and for words of a line, and on the sections of a text (`text_sections`).
//! Its main promise: a yes says that the netlist is alarm-secure for the source; a no tells the first reason, which by itself refutes that only where the netlist fits and has no latches, and the source allows one list of outputs. An answer is missing only where the text is refused, as an audit refuses it, or where memory is missing.
//! Its definitions are in `specs/`: ExactText (the line), ExactReply (the answers).
#![tactic(auto)]

mod answering;
mod exact_line;

pub use answering::audit_exactly;
