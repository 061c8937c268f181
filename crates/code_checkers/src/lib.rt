//! Checkers: gates whose two rails differ exactly where a monitored word is a codeword.
//! Its main type is `CheckGates`, a list of gates over the places of a word, and its two rails.
//! It stands on fault_secure, which says what plans, words and codewords are, and on tsc_net for `Plan`.
//! Its main promise is `rails_decide`: for every well-made plan and every word of its length the rails decide the code.
//! Definitions: specs/Signal.antt (signals, their values), specs/Checker.antt (pairs and rails of a plan), specs/Tree.antt (the tree over pairs).
#![tactic(auto)]

mod chain;
mod check_gates;
mod counter;
mod draft;
mod gate;
mod laws;
mod pair_places;
mod pair_tree;
mod pairs;
mod plan_checker;
mod shared;
mod threshold;
mod two_rail;
mod word_places;
mod word_sizes;

pub use check_gates::CheckGates;
pub use gate::CheckGate;
pub use laws::{
    gate_values, rails_are_realised, rails_decide, rails_over_decide, reads_word,
    realised_rails_are_sound, tree_decides,
};
pub use pair_tree::tree_of;
pub use plan_checker::{checker, group_checker, word_checker};
pub use word_sizes::WordSizes;
