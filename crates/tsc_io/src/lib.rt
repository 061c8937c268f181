//! Bytes in and bytes out: lists of items, sources to read from, sinks to write to, and keys of texts.
//! Its main type is `Items`, the list that every crate above uses, also as `Bytes` and `Words`.
//! It stands on std, on `thiserror` for its errors' texts, and on `sha2` for the keys.
//! Its main promise: `read_all` holds all bytes that came, and `write_all` writes all that it was given, or each says why not.
//! Its definitions are in `specs/`, one file for each concept.
#![tactic(auto)]

mod calls;
mod failed;
mod front;
mod items;
mod mem_sink;
mod mem_source;
mod null_sink;
mod plain_source;
mod reading;
mod sink;
mod source;
mod std_sink;
mod std_source;
mod text_key;
mod writing;

pub use failed::Failed;
pub use items::{Bytes, CallList, Items, Words};
pub use mem_sink::MemSink;
pub use mem_source::MemSource;
pub use null_sink::NullSink;
pub use plain_source::PlainSource;
pub use reading::{InError, read_all};
pub use sink::Sink;
pub use source::Source;
pub use std_sink::StdSink;
pub use std_source::StdSource;
pub use text_key::TextKey;
pub use writing::{WriteFault, write_all};
