//! How far a call is that takes several steps, as its driver keeps it.
use ckpt_types::{Choice, CkptId, Moment, NODES_MAX, NodeId};

/// How far an all-replicas update is.
#[derive(Clone, Copy)]
pub enum UpdatePhase {
    /// It stages on the complete nodes, in ascending order.
    Staging,
    /// It commits on the nodes where it has staged, in descending order.
    Committing,
    /// It has met a slot whose owner is not live, and has claimed none yet.
    Claiming,
    /// It has claimed such slots, in ascending order.
    Claimed,
    /// It withdraws what it has claimed, in descending order.
    Withdrawing,
    /// It commits what it has claimed, in descending order.
    Resolving,
}

/// A checkpoint that an open is making.
#[derive(Clone, Copy)]
pub struct Making {
    /// The checkpoint.
    pub ckpt: CkptId,
    /// By node, the incarnation under which it has reserved, or 0.
    pub reserved: [u32; NODES_MAX],
    /// A reservation was refused for memory.
    pub refused: bool,
}

/// The marks that a weak write has made on the active.
#[derive(Clone, Copy)]
pub struct MarksMade {
    /// The generation of its checkpoint then.
    pub generation: u64,
    /// How many of its elements are not done.
    pub left: u32,
}

/// What a call asks of the active replica.
#[derive(Clone, Copy)]
pub enum ActiveKind {
    /// An update at once.
    Apply,
    /// A weak write of so many elements.
    Weak(u32),
    /// A read.
    Read,
    /// The status.
    Status,
    /// The start of an iteration.
    Iterate(Choice),
    /// The next section of an iteration.
    Next,
}

/// What a synchronisation has pulled of the active.
#[derive(Clone, Copy)]
pub struct PulledAt {
    /// The generation of its checkpoint then.
    pub generation: u64,
    /// How many updates the active had.
    pub count: u64,
}

/// What a call brings to other replicas.
#[derive(Clone, Copy)]
pub enum SyncKind {
    /// What the active has, to all of them; it is too late from this moment on, where there is a timeout.
    Synchronize(Option<Moment>),
    /// What the active has, to the replica on this node, which is to be the active.
    ActiveSet(NodeId),
}
