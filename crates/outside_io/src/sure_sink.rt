//! A sink with which nothing can go wrong.
ghost use Rattle.std.specs.Prelude.{◌≡◌, ◌≤◌, length, None, Ok, IfOk};
ghost use Rattle.std.specs.Io.KnownBytes.{WriteAppends};
ghost use Rattle.outside_io.specs.Causes.{HasCause};
ghost use Rattle.outside_io.specs.Ends.{TakesSome};

use crate::failed::Failed;
use crate::sink::Sink;

/// A sink that takes each piece whole, keeps no bytes and never fails.
#[derive(Clone, Copy, Default)]
pub struct SureSink;

impl SureSink {
    /// A sink that takes everything.
    pub fn new() -> SureSink {
        SureSink
    }
}

impl Sink for SureSink {
    ghost held = { λ _. None };

    ghost faults = { λ _. 0 };

    fn write(&mut self, bytes: &[u8]) -> Result<usize, Failed>
        ensures within { IfOk result (λ count. count ≤ length bytes.now) }
        ensures takes_some { TakesSome result bytes.now }
        ensures appends { WriteAppends None None result bytes.now }
        ensures cause { HasCause 0 0 result }
        ensures whole { result ≡ Ok (length bytes.now) }
    {
        Ok(bytes.len())
    }
}
