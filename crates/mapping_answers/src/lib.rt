//! What `audit mapped` answers to a text: whether the netlist after another one is that one mapped cover by cover, with latches on the same clocks.
//! Its main call is `audit_mapped`.
//! It stands on the sections of a text (`text_sections`), on `mapping_audit`, which decides, and on `netlist_answers` for words of a line.
//! Its main promise: a yes is a mapping without a ring, so that whatever the first netlist is secure for, the second is, and no two latches at one place have types and controls that differ; a no tells the first reason. An answer is missing only where the text is refused, where a cover is too wide to be tried, or where memory is missing.
//! Its definitions are in `specs/`: MappedSections (what the text denotes, and what is refused of it), MappedClocks (whose clocks differ), MappedText (the line), MappedReply (the answers).
#![tactic(auto)]

mod answering;
mod clocks;
mod mapped_line;
mod pair;

pub use answering::audit_mapped;
