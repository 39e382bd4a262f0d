//! How moments, nodes, checkpoints, clients and calls are named.

/// A moment, or a time: a count of nanoseconds. The cluster has one moment, from 0 to 2^63-2, which
/// never falls.
pub type Moment = i64;

/// The number of a node, 0 to 7.
pub type NodeId = u8;

/// The life of a node: 1 when it first comes up, one more at each join.
pub type Incarnation = u32;

/// The number of a checkpoint, from 1 in the order in which they are made; it is never used again.
pub type CkptId = u32;

/// Who begins calls: a client, or a node for its copying.
#[derive(Clone, Copy, PartialEq, Eq)]
pub enum ActorName {
    /// A client, c0 to c99.
    Client(u8),
    /// A node, n0 to n7.
    Node(NodeId),
}

/// A call: who began it, and its number among that actor's calls, from 1.
#[derive(Clone, Copy, PartialEq, Eq)]
pub struct CallId {
    /// Who began it.
    pub actor: ActorName,
    /// Its number.
    pub number: u32,
}

/// Whose call is stepped: an actor, for the call that it has in hand, or an asynchronous operation by
/// the name of its call.
#[derive(Clone, Copy, PartialEq, Eq)]
pub enum Who {
    /// The call that the actor has in hand.
    Actor(ActorName),
    /// The unfinished asynchronous operation of this call.
    Call(CallId),
}
