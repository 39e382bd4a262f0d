//! What a driver answers when it is asked what its call does next.
ghost use Rattle.std.specs.Prelude.{◌≡◌};

use crate::requests::Request;
use crate::steps::Verb;
use ckpt_types::{CkptId, Moment, NodeId, Outcome};

/// A step of the record of the cluster.
#[derive(Clone, Copy)]
pub enum RecordStep {
    /// The client becomes live.
    Enter,
    /// The client is live no more.
    Leave,
    /// A checkpoint that is there is opened.
    Open,
    /// A checkpoint is in the making.
    Create,
    /// The making is finished.
    Finish,
    /// The making is undone.
    Undo,
    /// A reference goes.
    Close,
    /// The name goes.
    Unlink,
    /// The retention is set.
    Retain,
    /// A hold is put on the checkpoint, whose active is the node.
    Hold(NodeId),
    /// The node becomes the active.
    Activate(NodeId),
    /// The node becomes complete; the moment is that of the slots of its copying, where there are any.
    Complete(CkptId, NodeId, Option<Moment>),
}

impl RecordStep {
    ghost use Rattle.node_msgs.specs.Steps.{event_verb};

    /// What the step does.
    pub fn verb(&self) -> Verb
        ensures { result ≡ event_verb self.now }
    {
        match self {
            RecordStep::Enter => Verb::Enter,
            RecordStep::Leave => Verb::Leave,
            RecordStep::Open => Verb::Open,
            RecordStep::Create => Verb::Create,
            RecordStep::Finish => Verb::Finish,
            RecordStep::Undo => Verb::Undo,
            RecordStep::Close => Verb::Close,
            RecordStep::Unlink => Verb::Unlink,
            RecordStep::Retain => Verb::Retain,
            RecordStep::Hold(_) => Verb::Hold,
            RecordStep::Activate(_) => Verb::Activate,
            RecordStep::Complete(_, _, _) => Verb::Complete,
        }
    }
}

/// What a call does next.
#[derive(Clone, Copy)]
pub enum Next {
    /// A node serves a request.
    Serve(NodeId, Request),
    /// A step of the record.
    Event(RecordStep),
    /// The record alone decides how it ends.
    End(Outcome),
}
