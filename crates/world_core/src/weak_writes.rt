//! The steps by which a weak write does its elements, one by one, and ends its marks.
ghost use Rattle.std.specs.Prelude.{◌≡◌, ◌<◌, ◌≤◌, IsSomeAnd};
ghost use Rattle.ckpt_types.specs.Limits.{nodes_max};
ghost use Rattle.ckpt_types.specs.declared.identities.Who.{Who};
ghost use Rattle.node_msgs.specs.declared.next.Next.TheVariants as nexts;
ghost use Rattle.node_msgs.specs.Requests.{ckpt_of};
ghost use Rattle.ckpt_machine.specs.Nodes.{replica_in, with_changed};
ghost use Rattle.node_core.specs.Fitting.{IsReadyFor};
ghost use Rattle.node_core.specs.Payloads.{Payload};
ghost use Rattle.node_core.specs.Seen.{RecordSeen};
ghost use Rattle.node_core.specs.Serving.{replica_after};
ghost use Rattle.client_calls.specs.Names.{IsClientName};
ghost use Rattle.world_core.specs.Happenings.{Adds, IsNext, IsStep};
ghost use Rattle.world_core.specs.Marking.{IsOfMarks};
ghost use Rattle.world_core.specs.Shows.{IsShown};

use crate::world::World;
use ckpt_types::{Answer, NodeId, Who};
use client_calls::{let_go, served};
use cluster_nodes::Nodes;
use node_msgs::{Details, Reply, Request};
use run_labels::RunLog;

impl World {
    /// The active does the next element of a weak write, or ends its marks, which ends the call. Nothing is lent for that.
    #[inline(never)]
    pub(crate) fn marked_step(&mut self, who: Who, r: NodeId, request: &Request, log: &mut RunLog)
        requires next { IsNext self.old who (nexts.Serve r request.now) }
        requires marks { IsOfMarks request.now }
        requires client { IsClientName who }
        requires shown { IsShown self.old }
        requires spare { 1 ≤ log.old.spare }
        ensures { Adds log.old log.new (IsStep who self.old self.new) }
    {
        let slot = self.hands.at(who);
        let Some(hand) = slot else { unreachable!() };
        let call = hand.call;
        let op = hand.word();
        serve_marks(&mut self.nodes, r, request);
        let reply = Reply::Done(Answer::Nothing);
        let end = hand.take(&self.cluster, &reply);
        let_go(slot, &end);
        self.end_alone(who, &end);
        log.push(served(call, op, request, r, &reply, end, Details::Nothing));
    }
}

// The replica of a checkpoint on a node does the next element of a weak write, or counts the write, whose marks go.
#[inline(always)]
fn serve_marks(nodes: &mut Nodes, r: NodeId, request: &Request)
    requires marks { IsOfMarks request.now }
    requires node { r < nodes_max }
    requires ready { IsSomeAnd (replica_in nodes.old (ckpt_of request.now) r) (IsReadyFor request.now) }
    ensures { (p : Payload) (seen : RecordSeen) → nodes.new ≡ with_changed (ckpt_of request.now) r (replica_after request.now p seen) nodes.old }
{
    match *request {
        Request::Element(call, ckpt) => nodes.at(r, ckpt).weak_element(call),
        Request::Unmark(call, ckpt) => nodes.at(r, ckpt).weak_end(call),
        _ => unreachable!(),
    }
}
