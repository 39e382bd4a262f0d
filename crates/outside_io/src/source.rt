//! What every source promises of the bytes that it gives and of its faults.
ghost use Rattle.std.specs.Prelude.{◌≤◌, ℕ, List, length, Option, IfOk};
ghost use Rattle.std.specs.Io.KnownBytes.{ReadConsumes};
ghost use Rattle.outside_io.specs.Causes.{HasCause};
ghost use Rattle.outside_io.specs.Ends.{EndsExactly};

use crate::failed::Failed;

/// Bytes that come from outside, in order.
pub trait Source {
    /// The bytes that are left, where the source tells them.
    ghost left: { Self → Option (List ℕ) };

    /// How often a read has failed.
    ghost faults: { Self → ℕ };

    /// Puts the next bytes at the front of the buffer, and returns how many they are.
    /// 0 for a buffer that is not empty is the end of input.
    fn read(&mut self, buf: &mut [u8]) -> Result<usize, Failed>
        ensures within { IfOk result (λ count. count ≤ length buf.new) }

        // The bytes given are those that were left first, and at a failure none is lost.
        ensures consumes { ReadConsumes (left self.old) (left self.new) result buf.new }
        ensures end { EndsExactly (left self.old) result buf.new }
        ensures cause { HasCause (faults self.old) (faults self.new) result };
}
