//! The events by which a call holds a checkpoint, and sets its active.
ghost use Rattle.std.specs.Prelude.{◌≡◌, ◌≤◌, ◌<◌, ◌==◌, IfSome, IsSomeAnd, length, not, slice_index};
ghost use Rattle.std.specs.Option.{option_map};
ghost use Rattle.replica.specs.Replicas.{pull_result, pulled_unless};
ghost use Rattle.weak_marks.specs.Marks.{call_of};
ghost use Rattle.ckpt_types.specs.Limits.{nodes_max};
ghost use Rattle.cluster_record.specs.RecordState.{entry_of, hold_set, swept};
ghost use Rattle.node_msgs.specs.declared.next.Next.TheVariants as nexts;
ghost use Rattle.node_msgs.specs.declared.next.RecordStep.TheVariants as events;
ghost use Rattle.client_calls.specs.Names.{IsClientName};
ghost use Rattle.world_core.specs.Happenings.{Adds, IsNext, IsStep};
ghost use Rattle.ckpt_machine.specs.Leading.{copy_held, nodes_led, CanLead, HasFreeHold};
ghost use Rattle.ckpt_machine.specs.Nodes.{replica_in};
ghost use Rattle.world_core.specs.Shows.{HasNumbersLeft, IsShown};

use crate::world::World;
use ckpt_types::{CallId, CkptId, Held, NodeId, Who};
use client_calls::{InHand, let_go, stepped};
use cluster_nodes::Nodes;
use cluster_record::{Entry, Record};
use node_core::pull_whole;
use node_msgs::{Reply, StepReply, Verb};
use run_labels::RunLog;
use snap_copy::Snap;

impl World {
    /// The call holds its checkpoint, of which it has copied what the active has; the marks of a weak write there keep
    /// it off, and end it.
    #[inline(never)]
    pub(crate) fn hold_step(&mut self, who: Who, r: NodeId, log: &mut RunLog)
        requires next { IsNext self.old who (nexts.Event (events.Hold r)) }
        requires client { IsClientName who }
        requires shown { IsShown self.old }
        requires spare { 1 ≤ log.old.spare }
        ensures { Adds log.old log.new (IsStep who self.old self.new) }
    {
        let slot = self.hands.at(who);
        let Some(hand) = slot else { unreachable!() };
        let call = hand.call;
        let op = hand.word();
        let ckpt = hand.synchronized();
        match copy(hand, &self.nodes, r, ckpt) {
            Err(held) => {
                let end = hand.take_refusal(&self.cluster, &Reply::Held(held.by));
                let_go(slot, &end);
                self.end_alone(who, &end);
                let reply = StepReply::Held(held.by);
                log.push(stepped(call, op, Verb::Hold, Some(ckpt), Some(r), reply, end));
            }
            Ok(()) => {
                hold(&mut self.cluster, ckpt, call);
                let end = hand.take_done(&self.cluster, Some(ckpt));
                let_go(slot, &end);
                self.free_gone();
                self.end_alone(who, &end);
                let reply = StepReply::Ok;
                log.push(stepped(call, op, Verb::Hold, Some(ckpt), Some(r), reply, end));
            }
        }
    }

    /// A node is the active of the call's checkpoint from now on, and leads it with what the call holds, where it holds
    /// it. The call takes that, and ends.
    #[inline(never)]
    pub(crate) fn activate_step(&mut self, who: Who, r: NodeId, log: &mut RunLog)
        requires next { IsNext self.old who (nexts.Event (events.Activate r)) }
        requires client { IsClientName who }
        requires shown { IsShown self.old }
        requires roomy { HasNumbersLeft self.old }
        requires spare { 1 ≤ log.old.spare }
        ensures { Adds log.old log.new (IsStep who self.old self.new) }
    {
        let slot = self.hands.at(who);
        let Some(hand) = slot else { unreachable!() };
        let call = hand.call;
        let op = hand.word();
        let ckpt = hand.synchronized();
        let held = copy_held(&self.cluster, ckpt, hand.lend_snapshot());
        self.cluster.set_active(ckpt, r);
        self.cluster.sweep();
        let end = hand.take_done(&self.cluster, Some(ckpt));
        let_go(slot, &end);
        self.free_gone();
        lead(&self.cluster, &mut self.nodes, ckpt, r, &held);
        self.end_alone(who, &end);
        log.push(stepped(
            call,
            op,
            Verb::Activate,
            Some(ckpt),
            Some(r),
            StepReply::Ok,
            end,
        ));
    }
}

// A checkpoint that no call holds is held by this one; what is over goes.
fn hold(cluster: &mut Record, ckpt: CkptId, call: CallId)
    requires { HasFreeHold (entry_of ckpt cluster.old.entries) }
    ensures { cluster.new ≡ swept (hold_set ckpt call cluster.old) }
{
    let Ok(()) = cluster.hold(ckpt, call) else {
        unreachable!()
    };
    cluster.sweep();
}

// What a call has copied of a checkpoint, where this is held.
fn copy_held(cluster: &Record, ckpt: CkptId, snapshot: Option<Snap>) -> Option<Snap>
    ensures { result ≡ copy_held (entry_of ckpt cluster.now.entries) snapshot }
{
    let Some(entry) = cluster.entry(ckpt) else {
        return None;
    };
    if entry.hold.is_some() { snapshot } else { None }
}

// The replica of a node leads its checkpoint, where this is there and the node complete: with what was held, where
// something was.
fn lead(cluster: &Record, nodes: &mut Nodes, ckpt: CkptId, r: NodeId, held: &Option<Snap>)
    requires node { r < nodes_max }
    requires can { CanLead r held.now (replica_in nodes.old ckpt r) (entry_of ckpt cluster.now.entries) }
    ensures { nodes.new ≡ nodes_led ckpt r held.now (entry_of ckpt cluster.now.entries) nodes.old }
{
    let Some(entry) = cluster.entry(ckpt) else {
        return;
    };
    if entry.complete[r as usize] == 0 {
        return;
    }
    match held {
        None => {
            let Some(_) = nodes.find(r, ckpt) else {
                return;
            };
            nodes.at(r, ckpt).lead(entry.generation);
        }
        Some(snap) => {
            // The clause of `attributes` tells that its sections keep to them.
            let _declared = snap.attributes();
            nodes.at(r, ckpt).complete_from(snap, entry.generation);
        }
    }
}

// It copies what the replica of a checkpoint on a node has, unless the marks of a weak write keep it from that. It
// takes no memory.
fn copy(hand: &mut InHand, nodes: &Nodes, r: NodeId, ckpt: CkptId) -> Result<(), Held>
    requires node { r < nodes_max }
    requires there { IsSomeAnd hand.old.snapshot (λ s. IsSomeAnd (replica_in nodes.now ckpt r) (λ x. s.attributes ≡ x.attributes)) }
    ensures answer { IfSome (replica_in nodes.now ckpt r) (λ x. result ≡ pull_result (call_of x.marks)) }
    ensures new { IfSome (replica_in nodes.now ckpt r) (λ x. hand.new ≡ record hand.old { snapshot = option_map (pulled_unless (call_of x.marks) x) hand.old.snapshot }) }
{
    let Some(snap) = &mut hand.snapshot else {
        unreachable!()
    };
    let Some(replica) = nodes.find(r, ckpt) else {
        unreachable!()
    };
    pull_whole(replica, snap)
}
