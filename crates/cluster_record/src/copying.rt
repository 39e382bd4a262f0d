//! How far the copying to a node that has come back is, as its driver keeps it.
use ckpt_types::CkptId;

/// How far a copying is at a checkpoint.
#[derive(Clone, Copy)]
pub enum CopyPhase {
    /// Its node has reserved.
    Reserved,
    /// Its update is being staged on the complete nodes.
    Staging,
    /// It has pulled what the active had, in this generation of the checkpoint.
    PulledActive(u64),
    /// It has pulled what the replicas had while its update was staged on all of them.
    PulledStaged,
    /// Its node is complete, and its update is being committed.
    Committing,
}

/// The checkpoint that a copying is at.
#[derive(Clone, Copy)]
pub struct Copying {
    /// The checkpoint.
    pub ckpt: CkptId,
    /// How far it is there.
    pub phase: CopyPhase,
}
