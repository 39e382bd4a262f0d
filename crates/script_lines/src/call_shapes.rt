//! The calls whose lines have one shape, told apart by what is made of their words.
ghost use Rattle.std.specs.Prelude.{◌≡◌};
ghost use Rattle.script_lines.specs.Shapes.{handle_op, timed_op, iteration_op};

use ckpt_types::{Moment, Op};

/// A call that says a handle alone.
#[derive(Clone, Copy)]
pub enum HandleCall {
    /// `close`
    Close,
    /// `active`
    Active,
    /// `status`
    Status,
}

impl HandleCall {
    /// The call of the handle at a place.
    #[inline(always)]
    pub fn of(self, place: u8) -> Op
        ensures { result ≡ handle_op self place }
    {
        match self {
            HandleCall::Close => Op::Close(place),
            HandleCall::Active => Op::Active(place),
            HandleCall::Status => Op::Status(place),
        }
    }
}

/// A call that says a handle and a time.
#[derive(Clone, Copy)]
pub enum TimedCall {
    /// `retain`
    Retain,
    /// `sync`
    Sync,
}

impl TimedCall {
    /// The call of the handle at a place, with a time.
    #[inline(always)]
    pub fn of(self, place: u8, time: Moment) -> Op
        ensures { result ≡ timed_op self place time }
    {
        match self {
            TimedCall::Retain => Op::Retain(place, time),
            TimedCall::Sync => Op::Sync(place, time),
        }
    }
}

/// A call that says an iteration alone.
#[derive(Clone, Copy)]
pub enum IterationCall {
    /// `next`
    Next,
    /// `enditer`
    EndIter,
}

impl IterationCall {
    /// The call of the iteration at a place.
    #[inline(always)]
    pub fn of(self, iteration: u8) -> Op
        ensures { result ≡ iteration_op self iteration }
    {
        match self {
            IterationCall::Next => Op::Next(iteration),
            IterationCall::EndIter => Op::EndIter(iteration),
        }
    }
}
