//! What a program was called with.
ghost use Rattle.std.specs.Prelude.{ℕ, ◌≤◌, List, length, Option, None, IfOk, IfSome};
ghost use Rattle.command_run.specs.Arguments.{ReadsWord};

use std::env::{Env, FillError};

/// The words that a program was called with, from the program's name on, which has the number 0.
pub trait Arguments {
    /// The words, where it is known what they were.
    ghost called: { Self → Option (List (List ℕ)) };

    /// Puts the word with this number at the front of the place, and returns its length.
    fn word(&self, number: usize, place: &mut [u8]) -> Result<usize, FillError>
        ensures within { IfOk result (λ count. count ≤ length place.new) }
        ensures told { IfSome (called self.now) (λ words. ReadsWord words number result place.new) };
}

/// The words with which the system called the program. What they were is not known.
#[derive(Drop)]
pub struct StdArguments<'a, E: Env> {
    env: &'a E,
}

impl<'a, E: Env> StdArguments<'a, E> {
    /// The words of this environment.
    pub fn new(env: &'a E) -> StdArguments<'a, E> {
        StdArguments { env }
    }
}

impl<'a, E: Env> Arguments for StdArguments<'a, E> {
    ghost called = { λ _. None };

    fn word(&self, number: usize, place: &mut [u8]) -> Result<usize, FillError> {
        self.env.arg(number, place)
    }
}
