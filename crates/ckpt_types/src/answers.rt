//! How a call ends: what it answers when it was done, and what shows that a refusal is right.
use crate::ais_error::AisError;
use crate::identities::{CallId, CkptId, Moment};

/// What shows that a refusal is right.
#[derive(Clone, Copy, PartialEq, Eq)]
pub enum Cause {
    /// The refusal says all.
    Plain,
    /// The element of the vector that is refused, from 0.
    Index(u32),
    /// The other call that holds what this one needs.
    Holder(CallId),
    /// The generation that the call knew, and the present one.
    Generations(u64, u64),
    /// The deadline, and the moment that reached it.
    Deadline(Moment, Moment),
    /// The limit that is reached.
    Count(u32),
}

/// How many callbacks a dispatch gave, and how many finished ones it left.
#[derive(Clone, Copy)]
pub struct Given {
    /// How many it gave.
    pub given: u32,
    /// How many are left.
    pub left: u32,
}

/// What a call that was done answers. An outcome is moved often, so it is small: the details of an answer are told
/// beside it.
#[derive(Clone, Copy)]
pub enum Answer {
    /// No more than that it was done.
    Nothing,
    /// The version that the service speaks.
    Version,
    /// The checkpoint that was opened.
    Opened(CkptId),
    /// A section was made. Its identifier is told beside the answer.
    Created,
    /// The bytes of a read, which are told beside the answer.
    Pieces,
    /// The next section of an iteration, which is told beside the answer.
    Section,
    /// The status of a checkpoint, which is told beside the answer.
    Status,
    /// The number of updates that the replicas were brought to.
    Pulled(u64),
    /// What a dispatch gave.
    Dispatched(Given),
}

/// How a call ended.
#[derive(Clone, Copy)]
pub enum Outcome {
    /// It was done.
    Done(Answer),
    /// It was refused, and this shows why.
    Refused(AisError, Cause),
    /// Its own memory was refused.
    NoMemory,
    /// Its client's node failed; it has no result.
    Abandoned,
    /// Its client had a call in hand, and it was not begun.
    Busy,
    /// A step of a race did not fit what it found; no run has it.
    Astray,
}
