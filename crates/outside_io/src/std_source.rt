//! Standard input as a source.
ghost use Rattle.std.specs.Prelude.{◌≡◌, ◌≤◌, length, None, IfOk};
ghost use Rattle.std.specs.Io.KnownBytes.{ReadConsumes};
ghost use Rattle.outside_io.specs.Causes.{HasCause, faults_after};
ghost use Rattle.outside_io.specs.Ends.{EndsExactly};

use crate::counted::read_counted;
use crate::failed::Failed;
use crate::source::Source;
use std::io::Stdin;
use std::marker::Model;

/// Standard input. A contract sees it as its count of faults.
#[derive(Drop)]
pub struct StdSource {
    input: Stdin,
    faults: u64,
}

impl Model for StdSource {
    ghost use Rattle.std.specs.Prelude.{ℕ};

    ghost Value = { ℕ };

    ghost view = { λ s. s.faults };
}

impl StdSource {
    /// A source that reads standard input, and has not failed yet.
    pub fn new(input: Stdin) -> StdSource
        ensures { result ≡ 0 }
    {
        StdSource { input, faults: 0 }
    }
}

impl Source for StdSource {
    ghost left = { λ _. None };

    ghost faults = { λ s. s };

    fn read(&mut self, buf: &mut [u8]) -> Result<usize, Failed>
        ensures within { IfOk result (λ count. count ≤ length buf.new) }
        ensures consumes { ReadConsumes None None result buf.new }
        ensures end { EndsExactly None result buf.new }
        ensures cause { HasCause self.old self.new result }
        ensures counted { self.new ≡ faults_after self.old result }
    {
        read_counted(&mut self.input, buf, &mut self.faults)
    }
}
