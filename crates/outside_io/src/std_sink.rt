//! Standard output as a sink.
ghost use Rattle.std.specs.Prelude.{◌≡◌, ◌≤◌, length, None, IfOk};
ghost use Rattle.std.specs.Io.KnownBytes.{WriteAppends};
ghost use Rattle.outside_io.specs.Causes.{HasCause, faults_after};
ghost use Rattle.outside_io.specs.Ends.{TakesSome};

use crate::counted::write_counted;
use crate::failed::Failed;
use crate::sink::Sink;
use std::io::Stdout;
use std::marker::Model;

/// Standard output. A contract sees it as its count of faults.
#[derive(Drop)]
pub struct StdSink {
    output: Stdout,
    faults: u64,
}

impl Model for StdSink {
    ghost use Rattle.std.specs.Prelude.{ℕ};

    ghost Value = { ℕ };

    ghost view = { λ s. s.faults };
}

impl StdSink {
    /// A sink that writes to standard output, and has not failed yet.
    pub fn new(output: Stdout) -> StdSink
        ensures { result ≡ 0 }
    {
        StdSink { output, faults: 0 }
    }
}

impl Sink for StdSink {
    ghost held = { λ _. None };

    ghost faults = { λ s. s };

    fn write(&mut self, bytes: &[u8]) -> Result<usize, Failed>
        ensures within { IfOk result (λ count. count ≤ length bytes.now) }
        ensures takes_some { TakesSome result bytes.now }
        ensures appends { WriteAppends None None result bytes.now }
        ensures cause { HasCause self.old self.new result }
        ensures counted { self.new ≡ faults_after self.old result }
    {
        write_counted(&mut self.output, bytes, &mut self.faults)
    }
}
