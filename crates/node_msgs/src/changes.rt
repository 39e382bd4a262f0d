//! What a node does of its own for a step of the record.
use ckpt_types::{CallId, CkptId, Moment};

/// A node's part of a step of the record.
#[derive(Clone, Copy)]
pub enum NodeChange {
    /// A replica is added, with the opening sections and this generation.
    Add(CkptId, u64),
    /// The replica is put into the snapshot that is lent.
    Lend(CkptId),
    /// The replica takes the snapshot that is lent, with this generation.
    Take(CkptId, u64),
    /// The replica gets a slot of the call, at the moment, with the update that is lent.
    Stage(CallId, CkptId, Moment),
    /// The replica gets this generation.
    Lead(CkptId, u64),
    /// The marks of an abandoned weak write end, and its sections are corrupted.
    Break(CkptId),
    /// The replica goes.
    Drop(CkptId),
    /// All replicas go.
    Clear,
}
