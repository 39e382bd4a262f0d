//! The lines of a script.
use ckpt_types::{ActorName, CkptId, Moment, NodeId, Op, Who};

/// A line of a script that is neither empty nor a comment.
#[derive(Drop)]
pub enum Line {
    /// The first nodes come up, this many.
    Nodes(u8),
    /// A client's call, begun and stepped to its end.
    Call(u8, Op),
    /// A call that is begun and not stepped.
    Begin(ActorName, Op),
    /// Steps of a call that is begun, at most this many.
    Step(Who, u32),
    /// The steps of a call that is begun, to its end.
    Finish(Who),
    /// A node's copying of what it lacks, begun and stepped to its end.
    Copy(NodeId),
    /// A node fails.
    Fail(NodeId),
    /// A node comes up again.
    Join(NodeId),
    /// The moment, which holds from here on.
    At(Moment),
    /// A snapshot of a checkpoint is taken at its active replica.
    Pull(CkptId),
    /// The snapshot of a checkpoint is installed at a node.
    Put(CkptId, NodeId),
    /// A snapshot is taken, and installed at each replica that is not the active.
    Propagate(CkptId),
    /// The replicas of a checkpoint are printed.
    Show(CkptId),
    /// The lines from here to `End` run at once: calls, each client's in their order, and failures.
    Race,
    /// The race ends.
    End,
}
