//! What every sink promises of the bytes that it takes and of its faults.
ghost use Rattle.std.specs.Prelude.{◌≤◌, ℕ, List, length, Option, IfOk};
ghost use Rattle.std.specs.Io.KnownBytes.{WriteAppends};
ghost use Rattle.outside_io.specs.Causes.{HasCause};
ghost use Rattle.outside_io.specs.Ends.{TakesSome};

use crate::failed::Failed;

/// Where bytes go.
pub trait Sink {
    /// The bytes that it holds, where the sink tells them.
    ghost held: { Self → Option (List ℕ) };

    /// How often a write has failed.
    ghost faults: { Self → ℕ };

    /// Takes bytes from the front of the piece, and returns how many it took.
    /// To take none of a piece that is not empty is a failure.
    fn write(&mut self, bytes: &[u8]) -> Result<usize, Failed>
        ensures within { IfOk result (λ count. count ≤ length bytes.now) }
        ensures takes_some { TakesSome result bytes.now }

        // The bytes taken stand at its end, and at a failure it holds what it held.
        ensures appends { WriteAppends (held self.old) (held self.new) result bytes.now }
        ensures cause { HasCause (faults self.old) (faults self.new) result };
}
