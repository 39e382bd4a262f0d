//! A source in memory whose failures are chosen beforehand.
ghost use Rattle.std.specs.Prelude.{◌≡◌, ◌≤◌, ◌<◌, ◌↔◌, length, take, Some, IfOk, IsErr, Contains};
ghost use Rattle.std.specs.Io.KnownBytes.{ReadConsumes};
ghost use Rattle.outside_io.specs.Causes.{HasCause};
ghost use Rattle.outside_io.specs.Ends.{EndsExactly};
ghost use Rattle.outside_io.specs.MemSource.{fresh_source, source_after, unlimited, FillsFront};

use crate::failed::Failed;
use crate::front::copy_piece;
use crate::source::Source;
use std::alloc::{AllocError, Global};
use std::marker::Model;

/// A source in memory, of which chosen reads fail. Reads are numbered from 0, and each gives all that is left and fits, or
/// at most so many bytes.
#[derive(Drop)]
pub struct MemSource {
    contents: Vec<u8>,
    given: usize,
    piece: usize,
    calls: u64,
    fails: Vec<u64>,
    faults: u64,
}

impl Model for MemSource {
    ghost use Rattle.std.specs.Prelude.{◌≤◌, ◌<◌, drop, vec_len};
    ghost use Rattle.outside_io.specs.MemSource.{SourceInMemory};

    ghost Value = { SourceInMemory };

    ghost view = { λ s. record { left = drop s.given s.contents.items; piece = s.piece; calls = s.calls; fails = s.fails.items; faults = s.faults } };

    ghost invariant = { λ s. (s.given ≤ vec_len s.contents) × (0 < s.piece) };
}

impl MemSource {
    /// A source of these bytes, whose reads fail at these numbers. Its only error is want of memory.
    pub fn new(alloc: Global, contents: &[u8], fails: &[u64]) -> Result<MemSource, AllocError>
        ensures fresh { IfOk result (λ source. source ≡ fresh_source contents.now fails.now unlimited) }
        ensures whole { IfOk result (λ source. length source.left ≤ source.piece) }
    {
        MemSource::in_pieces(alloc, contents, fails, usize::MAX)
    }

    /// A source of these bytes, whose reads give at most `piece` bytes each, and fail at these numbers. Its only error is
    /// want of memory.
    pub fn in_pieces(
        alloc: Global,
        contents: &[u8],
        fails: &[u64],
        piece: usize,
    ) -> Result<MemSource, AllocError>
        requires some { 0 < piece }
        ensures fresh { IfOk result (λ source. source ≡ fresh_source contents.now fails.now piece) }
    {
        Ok(MemSource {
            contents: Vec::from_slice(alloc, contents)?,
            given: 0,
            piece,
            calls: 0,
            fails: Vec::from_slice(alloc, fails)?,
            faults: 0,
        })
    }
}

impl Source for MemSource {
    ghost left = { λ s. Some s.left };

    ghost faults = { λ s. s.faults };

    fn read(&mut self, buf: &mut [u8]) -> Result<usize, Failed>
        ensures within { IfOk result (λ count. count ≤ length buf.new) }
        ensures consumes { ReadConsumes (Some self.old.left) (Some self.new.left) result buf.new }
        ensures end { EndsExactly (Some self.old.left) result buf.new }
        ensures cause { HasCause self.old.faults self.new.faults result }

        // Which reads fail, and all that a read does.
        ensures fails { IsErr result ↔ Contains self.old.fails self.old.calls }
        ensures fills { FillsFront (take self.old.piece self.old.left) result buf.old buf.new }
        ensures after { self.new ≡ source_after self.old result }
    {
        let fails = self.fails.contains(&self.calls);
        self.calls = self.calls.saturating_add(1);
        if fails {
            self.faults = self.faults.saturating_add(1);
            return Err(Failed);
        }
        let count = copy_piece(self.contents.as_slice(), self.given, self.piece, buf);
        self.given += count;
        Ok(count)
    }
}
