//! Tests of the whole program through `tsc_tool::run`, over devices in memory, and nothing else, so that `tsc_tool` is proved once.
//! Its main call is `runs::after_run`, which runs words on a text; the other modules are tables of runs and how they have to end.
//! It stands on `tsc_tool`, on `tsc_io` for the devices and on `tsc_text` for numbers in texts.
//! Its promise: what is expected follows from the stated constructions, or was worked out by hand or by other programs.
//! It has no definitions and no proofs.
#![tactic(auto)]

#[cfg(test)]
mod accepted;
#[cfg(test)]
mod asked;
#[cfg(test)]
mod audits;
#[cfg(test)]
mod chains;
#[cfg(test)]
mod exact;
#[cfg(test)]
mod exposing;
#[cfg(test)]
mod failing;
#[cfg(test)]
mod given_answers;
#[cfg(test)]
mod graded;
#[cfg(test)]
mod joints;
#[cfg(test)]
mod limits;
#[cfg(test)]
mod made;
#[cfg(test)]
mod mappings;
#[cfg(test)]
mod refused;
#[cfg(test)]
mod refuted;
#[cfg(test)]
mod runs;
#[cfg(test)]
mod tables;
#[cfg(test)]
mod texts;
#[cfg(test)]
mod wide;
