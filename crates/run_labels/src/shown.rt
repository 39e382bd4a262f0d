//! The replicas of a checkpoint, as a `show` line tells them.
use ckpt_types::{Bytes, CallId, NodeId, SectionDescriptor, Vector};

/// What stands on a replica for a call.
#[derive(Clone, Copy)]
pub enum ShownSlot {
    /// Nothing.
    Free,
    /// A slot of this call.
    Held(CallId),
    /// Marks of this call.
    Mark(CallId),
}

/// A section as a `show` line prints it.
#[derive(Drop)]
pub struct ShownSection {
    /// What it is.
    pub descriptor: SectionDescriptor,
    /// Its first bytes.
    pub first: Bytes,
}

/// The sections of a replica, in their order.
pub type ShownSections = Vector<ShownSection>;

/// A replica as a `show` line prints it.
#[derive(Drop)]
pub struct ShownReplica {
    /// The node that it is on.
    pub node: NodeId,
    /// Whether it is the active.
    pub active: bool,
    /// Its own generation.
    pub generation: u64,
    /// How many updates it has.
    pub count: u64,
    /// What stands on it for a call.
    pub slot: ShownSlot,
    /// Its sections that are present.
    pub sections: ShownSections,
}

/// The replicas of a checkpoint, in the order of the nodes.
pub type ShownReplicas = Vector<ShownReplica>;
