//! The staging of an update, as whoever brings a node up to a checkpoint goes by it.
use crate::record::Record;
use ckpt_types::{CallId, CkptId, Incarnation, Moment, NodeId, Outcome};
use node_msgs::{Next, Reply};
use std::alloc::{AllocError, Global};

/// An update on all replicas, step by step. Whoever has it staged before it does more, and then has it committed, goes by
/// this, and its proof reads nothing of how that is kept.
pub trait Staging: Sized {
    ghost use Rattle.std.specs.Prelude.{◌≡◌, ◌<◌, IfOk};
    ghost use Rattle.ckpt_types.specs.Limits.{nodes_max};
    ghost use Rattle.cluster_record.specs.DueUpdate.{UpdateState, all_staged, update_begun, update_joined, update_next};
    ghost use Rattle.cluster_record.specs.Ends.{IsAtANode, update_outcome, update_told};

    /// The update as it is: its phase, the nodes where it owns its slot, their moment, and what it has met.
    ghost staging: { Self → UpdateState };

    /// It is the update of this call on this checkpoint from then on, which has staged nowhere.
    fn start(&mut self, call: CallId, ckpt: CkptId)
        ensures { staging self.new ≡ update_begun call ckpt };

    /// What it does next.
    fn next(&self, seen: &Record) -> Next
        ensures next { result ≡ update_next seen.now (staging self.now) }
        ensures at { IsAtANode result };

    /// It takes a reply to what is next. How that ends it, if it does; what the record alone decides ends it so.
    fn take(&mut self, seen: &Record, reply: &Reply) -> Option<Outcome>
        ensures new { staging self.new ≡ update_told seen.now reply.now (staging self.old) }
        ensures outcome { result ≡ update_outcome seen.now reply.now (staging self.old) };

    /// Whether it has staged on each complete node, and has committed nowhere.
    fn all_staged(&self, seen: &Record) -> bool
        ensures { result ≡ all_staged seen.now (staging self.now) };

    /// It owns its slot at this node too, which has come to be complete with this incarnation.
    fn joined(&mut self, node: NodeId, incarnation: Incarnation)
        requires { node < nodes_max }
        ensures { staging self.new ≡ update_joined node incarnation (staging self.old) };

    /// The moment of its slots.
    fn moment(&self) -> Moment
        ensures { result ≡ (staging self.now).moment };

    /// An equal one.
    fn copy(&self, alloc: Global) -> Result<Self, AllocError>
        ensures { IfOk result (λ copy. staging copy ≡ staging self.now) };
}
