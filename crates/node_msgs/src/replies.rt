//! The replies of nodes, and the words by which steps tell them.
ghost use Rattle.std.specs.Prelude.{◌≡◌};

use crate::steps::StepReply;
use ckpt_types::{AisError, Answer, CallId};

/// What a node answers to a request.
#[derive(Clone, Copy)]
pub enum Reply {
    /// It was done.
    Done(Answer),
    /// A slot or marks of this call stand.
    Held(CallId),
    /// The slot is the caller's now; the replica's count of updates.
    Claimed(u64),
    /// No slot stands; the replica's count of updates.
    Free(u64),
    /// The sections refuse it: the error, and for a vector the index of its element.
    Refused(AisError, u32),
    /// The node is not complete for the checkpoint.
    NoReplica,
    /// The replica's generation and count are not below the snapshot's.
    Older(u64, u64),
    /// The snapshot's generation, and the present one.
    Stale(u64, u64),
    /// The memory of a reservation was refused.
    NoMemory,
}

impl Reply {
    ghost use Rattle.node_msgs.specs.Steps.{word_of};

    /// How a step tells it.
    pub fn word(&self) -> StepReply
        ensures { result ≡ word_of self.now }
    {
        match self {
            Reply::Done(_) | Reply::Claimed(_) => StepReply::Ok,
            Reply::Held(by) => StepReply::Held(*by),
            Reply::Free(count) => StepReply::Free(*count),
            Reply::Refused(_, _) | Reply::NoReplica | Reply::Stale(_, _) => StepReply::Refused,
            Reply::Older(_, _) => StepReply::Older,
            Reply::NoMemory => StepReply::Memory,
        }
    }
}
