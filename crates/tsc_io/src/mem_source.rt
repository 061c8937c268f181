//! A source of bytes in memory, which can be told to give little at a time and to fail.
ghost use Rattle.std.specs.Prelude.{◌≡◌, ◌+◌, ◌<◌, ◌≤◌, ◌↔◌, min, length, take, Some, IfOk, OnErr, IsErr, is_ok, Contains, if◌then◌else◌};
ghost use Rattle.std.specs.Io.KnownBytes.{Consumes, IsAtEnd, Keeps};
ghost use Rattle.tsc_io.specs.Counts.{Rose, next_count};

use crate::calls::Calls;
use crate::failed::Failed;
use crate::front::copy_from;
use crate::items::{Bytes, CallList};
use crate::source::Source;
use std::marker::Model;

/// A source that gives these bytes, a piece at a time, and fails at chosen calls.
#[derive(Debug, Drop)]
pub struct MemSource {
    bytes: Bytes,
    start: usize,
    piece: usize,
    calls: Calls,
}

impl Model for MemSource {
    ghost use Rattle.std.specs.Prelude.{◌<◌, ◌≤◌, drop, length};
    ghost use Rattle.tsc_io.specs.SourceState.{SourceState};

    ghost Value = { SourceState };

    ghost view = { λ source. record {
      left = drop source.start source.bytes;
      piece = source.piece;
      fails = source.calls.fails;
      calls = source.calls.made;
      faults = source.calls.faults;
    } };

    ghost invariant = { λ source. (source.start ≤ length source.bytes) × (0 < source.piece) };
}

impl MemSource {
    /// A source of `bytes`, which gives at most `piece` of them per call. It fails the calls whose numbers, from 0, are in `fails`.
    pub fn new(bytes: Bytes, piece: usize, fails: CallList) -> MemSource
        requires { 0 < piece }
        ensures fresh { result ≡ record { left = bytes; piece = piece; fails = fails; calls = 0; faults = 0 } }
    {
        MemSource {
            bytes,
            start: 0,
            piece,
            calls: Calls::new(fails),
        }
    }
}

impl Source for MemSource {
    ghost left = { λ source. Some source.left };

    ghost faults = { λ source. source.faults };

    ghost calls = { λ source. source.calls };

    /// Gives a piece, or fails.
    fn read(&mut self, into: &mut [u8]) -> Result<usize, Failed>
        requires { 0 < length into.old }

        // What every source promises.
        ensures within { IfOk result (λ count. count ≤ length into.new) }
        ensures came { IfOk result (λ count. Consumes (Some self.old.left) (Some self.new.left) (take count into.new)) }
        ensures end { IfOk result (λ count. count ≡ 0 → IsAtEnd (Some self.new.left)) }
        ensures failed { OnErr result (Rose self.old.faults self.new.faults) }
        ensures kept { OnErr result (Keeps (Some self.old.left) (Some self.new.left)) }
        ensures faults_stay { self.old.faults ≤ self.new.faults }
        ensures calls_stay { self.old.calls ≤ self.new.calls }
        ensures one_call { self.new.calls ≤ self.old.calls + 1 }

        // Which calls fail, how much comes, and what is counted.
        ensures fails { IsErr result ↔ Contains self.old.fails self.old.calls }
        ensures piece { IfOk result (λ count. count ≡ min self.old.piece (min (length self.old.left) (length into.old))) }
        ensures calls { self.new.calls ≡ next_count self.old.calls }
        ensures faults { self.new.faults ≡ (if is_ok result then self.old.faults else next_count self.old.faults) }
        ensures piece_stays { self.new.piece ≡ self.old.piece }
        ensures fails_stay { self.new.fails ≡ self.old.fails }
    {
        if self.calls.next_fails() {
            return Err(self.calls.fault());
        }
        let count = copy_from(&self.bytes, self.start, into, self.piece);
        self.start += count;
        Ok(count)
    }
}
