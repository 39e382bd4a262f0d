//! A source with which nothing can go wrong.
ghost use Rattle.std.specs.Prelude.{◌≡◌, ◌≤◌, length, drop, Some, IfOk, IsOk};
ghost use Rattle.std.specs.Io.KnownBytes.{ReadConsumes};
ghost use Rattle.outside_io.specs.Causes.{HasCause};
ghost use Rattle.outside_io.specs.Ends.{EndsExactly};
ghost use Rattle.outside_io.specs.MemSource.{FillsFront};

use crate::failed::Failed;
use crate::front::copy_from;
use crate::source::Source;
use std::alloc::{AllocError, Global};
use std::marker::Model;

/// A source in memory that never fails. A contract sees it as the bytes that are left.
#[derive(Drop)]
pub struct SureSource {
    contents: Vec<u8>,
    given: usize,
}

impl Model for SureSource {
    ghost use Rattle.std.specs.Prelude.{◌≤◌, ℕ, List, drop, vec_len};

    ghost Value = { List ℕ };

    ghost view = { λ s. drop s.given s.contents.items };

    ghost invariant = { λ s. s.given ≤ vec_len s.contents };
}

impl SureSource {
    /// A source of these bytes. Its only error is want of memory.
    pub fn new(alloc: Global, contents: &[u8]) -> Result<SureSource, AllocError>
        ensures left { IfOk result (λ source. source ≡ contents.now) }
    {
        Ok(SureSource {
            contents: Vec::from_slice(alloc, contents)?,
            given: 0,
        })
    }
}

impl Source for SureSource {
    ghost left = { λ s. Some s };

    ghost faults = { λ _. 0 };

    fn read(&mut self, buf: &mut [u8]) -> Result<usize, Failed>
        ensures within { IfOk result (λ count. count ≤ length buf.new) }
        ensures consumes { ReadConsumes (Some self.old) (Some self.new) result buf.new }
        ensures end { EndsExactly (Some self.old) result buf.new }
        ensures cause { HasCause 0 0 result }

        // It never fails, and gives as much as is left and fits.
        ensures sure { IsOk result }
        ensures fills { FillsFront self.old result buf.old buf.new }
        ensures after { IfOk result (λ count. self.new ≡ drop count self.old) }
    {
        let count = copy_from(self.contents.as_slice(), self.given, buf);
        self.given += count;
        Ok(count)
    }
}
