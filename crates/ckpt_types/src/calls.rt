//! What calls carry along, what holds them off, and the calls of a race.
use crate::answers::Outcome;
use crate::attributes::CreationAttributes;
use crate::bytes::Bytes;
use crate::identities::{CallId, NodeId};
use crate::operation::Op;
use crate::vector::Vector;

/// A slot, marks, a hold or a making stands for another call.
#[derive(Clone, Copy)]
pub struct Held {
    /// The other call.
    pub by: CallId,
}

/// All places are taken.
#[derive(Clone, Copy, PartialEq, Eq)]
pub struct Count {
    /// How many places there are.
    pub count: u32,
}

/// The version that a client asks for.
#[derive(Clone, Copy, PartialEq, Eq)]
pub struct Version {
    /// The release, a letter from `A` to `Z`.
    pub release: u8,
    /// The major version.
    pub major: u8,
    /// The minor version.
    pub minor: u8,
}

/// The callbacks that a client registers.
#[derive(Clone, Copy, PartialEq, Eq)]
pub struct CallbackSet {
    /// That of an asynchronous open.
    pub opens: bool,
    /// That of an asynchronous synchronisation.
    pub syncs: bool,
}

/// The kinds of asynchronous calls.
#[derive(Clone, Copy)]
pub enum AsyncKind {
    /// An open, with the place that its handle gets.
    Open(u8),
    /// A synchronization.
    Sync,
}

/// A callback that a dispatch gives: how an asynchronous call has ended.
#[derive(Clone, Copy)]
pub struct Callback {
    /// Of which kind the call is.
    pub kind: AsyncKind,
    /// The invocation by which its client knows it.
    pub invocation: u64,
    /// How it has ended.
    pub outcome: Outcome,
}

/// What an open asks of the record of the cluster.
#[derive(Drop)]
pub struct OpenAsk {
    /// The checkpoint's name.
    pub name: Bytes,
    /// The attributes to make it with, where it may be made.
    pub attrs: Option<CreationAttributes>,
    /// The client that opens it, 0 to 99.
    pub client: u8,
    /// That client's node.
    pub node: NodeId,
}

/// One line of a race.
#[derive(Drop)]
pub enum RaceLine {
    /// A call of a client.
    Call(u8, Op),
    /// The failure of a node.
    Fail(NodeId),
}

/// The lines of a race, in their order.
pub type RaceBlock = Vector<RaceLine>;
