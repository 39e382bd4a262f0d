//! The labels of a run: one for each event.
use crate::shown::ShownReplicas;
use crate::words::{LineWord, Said};
use ckpt_types::{CallId, CkptId, Incarnation, Moment, NodeId, Op, OpWord, Outcome, Who};
use node_msgs::{Details, StepReply, Verb};

/// How a `pull` line was answered.
#[derive(Clone, Copy)]
pub enum PullReply {
    /// A snapshot with so many updates was taken.
    Ok(u64),
    /// Marks of this call stand.
    Held(CallId),
    /// There was nothing to pull.
    Nothing,
}

/// How a `put` line was answered.
#[derive(Clone, Copy)]
pub enum PutReply {
    /// The snapshot with so many updates was installed.
    Ok(u64),
    /// There was nothing to put, or no place for it.
    Nothing,
    /// The snapshot's generation, and the present one.
    Stale(u64, u64),
    /// The replica's generation and count, which are not below the snapshot's.
    Old(u64, u64),
}

/// One event of a run.
#[derive(Drop)]
pub enum Label {
    /// A call began, and may have ended at once.
    Began {
        /// The call.
        call: CallId,
        /// What it asks for.
        op: Op,
        /// How it ended.
        end: Option<Outcome>,
        /// What the call is told beside its end: the callbacks of a dispatch.
        details: Details,
    },
    /// A call took a step, and may have ended by it.
    Stepped {
        /// The call.
        call: CallId,
        /// The first word of its line.
        op: OpWord,
        /// What the step did.
        verb: Verb,
        /// The checkpoint, where the step has one.
        ckpt: Option<CkptId>,
        /// The node, where the step has one.
        node: Option<NodeId>,
        /// How it was answered.
        reply: StepReply,
        /// How the call ended.
        end: Option<Outcome>,
        /// What the call is told beside its end.
        details: Details,
    },
    /// A node failed, or was not up.
    Failed(NodeId, bool),
    /// A node came up in its next incarnation, or was up.
    Joined(NodeId, Option<Incarnation>),
    /// The moment was set.
    Moved(Moment),
    /// A snapshot was pulled.
    Pulled(CkptId, PullReply),
    /// A snapshot was put.
    Put(CkptId, NodeId, PutReply),
    /// The replicas of a checkpoint were shown, or it was gone.
    Shown(CkptId, Option<ShownReplicas>),
    /// A word answered a line.
    Word(Who, LineWord, Said),
    /// The first nodes came up.
    Nodes(u8),
}
