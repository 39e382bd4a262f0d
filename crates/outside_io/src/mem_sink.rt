//! A sink in memory whose failures are chosen beforehand.
ghost use Rattle.std.specs.Prelude.{◌≡◌, ◌≤◌, ◌<◌, ◌↔◌, length, Some, IfOk, IsErr};
ghost use Rattle.std.specs.Io.KnownBytes.{WriteAppends};
ghost use Rattle.outside_io.specs.Causes.{HasCause};
ghost use Rattle.outside_io.specs.Ends.{TakesSome};
ghost use Rattle.outside_io.specs.MemSource.{unlimited};
ghost use Rattle.outside_io.specs.MemSink.{fresh_sink, fitting, sink_after, IsFailing};

use crate::failed::Failed;
use crate::front::append_front;
use crate::sink::Sink;
use std::alloc::{AllocError, Global};
use std::marker::Model;

/// A sink in memory with room for so many bytes, of which chosen writes fail. Writes are numbered from 0, and each takes all
/// that fits, or at most so many bytes.
#[derive(Drop)]
pub struct MemSink {
    held: Vec<u8>,
    room: usize,
    piece: usize,
    calls: u64,
    fails: Vec<u64>,
    faults: u64,
}

impl Model for MemSink {
    ghost use Rattle.std.specs.Prelude.{◌≤◌, ◌<◌, vec_len, vec_capacity};
    ghost use Rattle.outside_io.specs.MemSink.{SinkInMemory};

    ghost Value = { SinkInMemory };

    ghost view = { λ s. record { held = s.held.items; room = s.room; piece = s.piece; calls = s.calls; fails = s.fails.items; faults = s.faults } };

    ghost invariant = { λ s. (vec_len s.held ≤ s.room) × (s.room ≤ vec_capacity s.held) × (0 < s.piece) };
}

impl MemSink {
    /// A sink with room for `room` bytes, whose writes fail at these numbers. Its only error is want of memory.
    pub fn new(alloc: Global, room: usize, fails: &[u64]) -> Result<MemSink, AllocError>
        ensures fresh { IfOk result (λ sink. sink ≡ fresh_sink room fails.now unlimited) }
        ensures whole { IfOk result (λ sink. sink.room ≤ sink.piece) }
    {
        MemSink::in_pieces(alloc, room, fails, usize::MAX)
    }

    /// A sink with room for `room` bytes, whose writes take at most `piece` bytes each, and fail at these numbers. Its only
    /// error is want of memory.
    pub fn in_pieces(
        alloc: Global,
        room: usize,
        fails: &[u64],
        piece: usize,
    ) -> Result<MemSink, AllocError>
        requires some { 0 < piece }
        ensures fresh { IfOk result (λ sink. sink ≡ fresh_sink room fails.now piece) }
    {
        Ok(MemSink {
            held: Vec::with_capacity(alloc, room)?,
            room,
            piece,
            calls: 0,
            fails: Vec::from_slice(alloc, fails)?,
            faults: 0,
        })
    }

    /// The bytes that were taken so far.
    pub fn contents(&self) -> &[u8]
        ensures held { result.now ≡ self.now.held }
        ensures within { length self.now.held ≤ self.now.room }
    {
        self.held.as_slice()
    }
}

impl Sink for MemSink {
    ghost held = { λ s. Some s.held };

    ghost faults = { λ s. s.faults };

    fn write(&mut self, bytes: &[u8]) -> Result<usize, Failed>
        ensures within { IfOk result (λ count. count ≤ length bytes.now) }
        ensures takes_some { TakesSome result bytes.now }
        ensures appends { WriteAppends (Some self.old.held) (Some self.new.held) result bytes.now }
        ensures cause { HasCause self.old.faults self.new.faults result }

        // Which writes fail, and all that a write does.
        ensures refused { IsErr result ↔ IsFailing self.old bytes.now }
        ensures fits { IfOk result (λ count. count ≡ fitting self.old bytes.now) }
        ensures after { self.new ≡ sink_after self.old bytes.now result }
    {
        let fails = self.fails.contains(&self.calls);
        self.calls = self.calls.saturating_add(1);
        let room = self.room - self.held.len();
        if fails || (room == 0 && !bytes.is_empty()) {
            self.faults = self.faults.saturating_add(1);
            return Err(Failed);
        }
        let count = self.piece.min(bytes.len()).min(room);
        append_front(&mut self.held, bytes, count);
        Ok(count)
    }
}
