//! The words of a step: what it did, and how it was answered.
use ckpt_types::CallId;

/// What a step of a call does.
#[derive(Clone, Copy)]
pub enum Verb {
    /// The client becomes live.
    Enter,
    /// The client is live no more.
    Leave,
    /// A checkpoint that is there is opened.
    Open,
    /// A checkpoint is in the making.
    Create,
    /// A node takes the storage of a replica.
    Reserve,
    /// The making is finished.
    Finish,
    /// The making is undone.
    Undo,
    /// A reference goes.
    Close,
    /// The name goes.
    Unlink,
    /// The retention is set.
    Retain,
    /// The active reads.
    Read,
    /// The active tells the status.
    Status,
    /// The active starts an iteration.
    Iter,
    /// The active gives an iteration's next section.
    Next,
    /// A replica stages an update.
    Stage,
    /// A replica commits its staged update.
    Commit,
    /// A slot of a call that is not live is taken over.
    Claim,
    /// A replica drops its staged update.
    Withdraw,
    /// The active applies an update at once.
    Apply,
    /// The active marks the sections of a weak write.
    Mark,
    /// The active writes an element of a weak write.
    Element,
    /// The active ends the marks of a weak write.
    Unmark,
    /// A snapshot is taken.
    Pull,
    /// A snapshot is installed.
    Install,
    /// A hold is put on a checkpoint.
    Hold,
    /// A node becomes the active.
    Activate,
    /// A node becomes complete.
    Complete,
    /// The record alone decides.
    Look,
}

/// How a step was answered.
#[derive(Clone, Copy)]
pub enum StepReply {
    /// It was done.
    Ok,
    /// Nothing was left to do.
    Done,
    /// This call holds what the step needs.
    Held(CallId),
    /// No slot stands on the replica, which has so many updates.
    Free(u64),
    /// It was refused.
    Refused,
    /// The replica is not older than the snapshot.
    Older,
    /// Memory was refused.
    Memory,
}
