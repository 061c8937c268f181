//! A sink into memory of a fixed room, which can be told to take little at a time and to fail.
ghost use Rattle.std.specs.Prelude.{◌≡◌, ◌-◌, ◌<◌, ◌≤◌, ◌⊎◌, ◌↔◌, min, [], length, take, Some, IfOk, OnErr, IsErr, is_ok, Contains, if◌then◌else◌};
ghost use Rattle.std.specs.Io.KnownBytes.{Appends, Keeps};
ghost use Rattle.tsc_io.specs.Counts.{Rose, next_count};

use crate::calls::Calls;
use crate::failed::Failed;
use crate::items::CallList;
use crate::sink::Sink;
use std::alloc::{AllocError, Global};
use std::marker::Model;

/// A sink that keeps what is written, and fails at chosen calls and where it is full.
#[derive(Debug, Drop)]
pub struct MemSink {
    held: Vec<u8>,
    room: usize,
    piece: usize,
    calls: Calls,
}

impl Model for MemSink {
    ghost use Rattle.std.specs.Prelude.{◌<◌, ◌≤◌, vec_len, vec_capacity};
    ghost use Rattle.tsc_io.specs.SinkState.{SinkState};

    ghost Value = { SinkState };

    ghost view = { λ sink. record {
      written = sink.held.items;
      room = sink.room;
      piece = sink.piece;
      fails = sink.calls.fails;
      calls = sink.calls.made;
      faults = sink.calls.faults;
    } };

    ghost invariant = { λ sink. (vec_len sink.held ≤ sink.room) × (sink.room ≤ vec_capacity sink.held) × (0 < sink.piece) };
}

impl MemSink {
    /// A sink with room for `room` bytes, which takes at most `piece` per call. It fails the calls whose numbers, from 0, are in `fails`.
    ///
    /// # Errors
    ///
    /// Want of memory.
    pub fn new(
        alloc: Global,
        room: usize,
        piece: usize,
        fails: CallList,
    ) -> Result<MemSink, AllocError>
        requires { 0 < piece }
        ensures fresh { IfOk result (λ sink. sink ≡ record { written = []; room = room; piece = piece; fails = fails; calls = 0; faults = 0 }) }
    {
        let held = Vec::with_capacity(alloc, room)?;
        Ok(MemSink {
            held,
            room,
            piece,
            calls: Calls::new(fails),
        })
    }

    /// What was written.
    pub fn written(&self) -> &[u8]
        ensures written { result.now ≡ self.now.written }
    {
        self.held.as_slice()
    }
}

impl Sink for MemSink {
    ghost written = { λ sink. Some sink.written };

    ghost faults = { λ sink. sink.faults };

    /// Takes a piece, or fails.
    fn write(&mut self, bytes: &[u8]) -> Result<usize, Failed>
        requires { 0 < length bytes.now }

        // What every sink promises.
        ensures some { IfOk result (λ count. 0 < count) }
        ensures within { IfOk result (λ count. count ≤ length bytes.now) }
        ensures gained { IfOk result (λ count. Appends (Some self.old.written) (Some self.new.written) (take count bytes.now)) }
        ensures failed { OnErr result (Rose self.old.faults self.new.faults) }
        ensures kept { OnErr result (Keeps (Some self.old.written) (Some self.new.written)) }
        ensures faults_stay { self.old.faults ≤ self.new.faults }

        // Which calls fail, how much is taken, and what is counted.
        ensures fails { IsErr result ↔ (Contains self.old.fails self.old.calls ⊎ (self.old.room ≤ length self.old.written)) }
        ensures piece { IfOk result (λ count. count ≡ min self.old.piece (min (self.old.room - length self.old.written) (length bytes.now))) }
        ensures calls { self.new.calls ≡ next_count self.old.calls }
        ensures faults { self.new.faults ≡ (if is_ok result then self.old.faults else next_count self.old.faults) }
        ensures room_stays { self.new.room ≡ self.old.room }
        ensures piece_stays { self.new.piece ≡ self.old.piece }
        ensures fails_stay { self.new.fails ≡ self.old.fails }
    {
        let free = self.room - self.held.len();
        if self.calls.next_fails() || free == 0 {
            return Err(self.calls.fault());
        }
        let count = self.piece.min(free.min(bytes.len()));
        self.held.extend_from_slice(&bytes[..count]).unwrap();
        Ok(count)
    }
}
