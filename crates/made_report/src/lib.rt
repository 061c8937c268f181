//! The report on a machine that is made from a number: what it is, its netlist under the Berger code, and the audit of both.
//! Its main call is `make_report`.
//! It stands on `machine_maker`, which makes the machine's text, `text_sections`, which reads it, `answers`, which synthesises it, and `audit`.
//! Its main promise: the report is a function of the number, and only memory may be missing for it.
//! Its definitions are in `specs/`: Made.
#![tactic(auto)]

mod making;

pub use making::make_report;
