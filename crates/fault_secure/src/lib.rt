//! What fault-secure means: circuits, faults, failing cells, settled valuations, runs, plans and codewords, structure, sources.
//! Its main definitions are `IsFaultSecure` and `IsCellSecure`; its only code is `Code`, the three codes.
//! It stands on `tsc_cover` (covers) and `tsc_bits` (lists of bits).
//! Its main promise: in an acyclic circuit there is exactly one valuation and exactly one run (`one_valuation`, `one_run`).
//! Definitions, in reading order: specs/Circuit, StuckAt, Listed, Settle, Run, CodePlan, Depends, Structure, SoundStructure, Logic, Behaviour, FaultSecure, FailingCell, CellSecure, Exposing; Segment and Stretch for circuits that are built stretch by stretch.
#![tactic(auto)]

mod code;
mod runs;

pub use code::Code;
pub use runs::{one_run, one_valuation};
