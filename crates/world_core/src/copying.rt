//! The events by which a node's copying begins, and takes its steps.
ghost use Rattle.std.specs.Prelude.{◌≡◌, ◌⊎◌, ◌≤◌, ◌<◌, ◌+◌, ◌-◌, ◌^◌, length, Some, None, false, IfOk, IsSomeAnd, MatchOption, OnOk, OnErr, slice_get, slice_set};
ghost use Rattle.ckpt_types.specs.declared.answers.Outcome.{Outcome};
ghost use Rattle.ckpt_types.specs.declared.answers.Outcome.TheVariants as outcomes;
ghost use Rattle.ckpt_types.specs.declared.identities.ActorName.TheVariants.{Node};
ghost use Rattle.ckpt_types.specs.declared.identities.Who.TheVariants.{Actor};
ghost use Rattle.ckpt_types.specs.declared.operation.Op.TheVariants as ops;
ghost use Rattle.ckpt_types.specs.declared.update.Update.TheVariants as updates;
ghost use Rattle.ckpt_types.specs.declared.words.OpWord.TheVariants as opwords;
ghost use Rattle.ckpt_types.specs.Asks as asks;
ghost use Rattle.ckpt_types.specs.Attributes.{is_malformed};
ghost use Rattle.ckpt_types.specs.Limits.{nodes_max};
ghost use Rattle.node_msgs.specs.declared.next.Next.TheVariants as nexts;
ghost use Rattle.node_msgs.specs.declared.next.RecordStep.TheVariants as events;
ghost use Rattle.node_msgs.specs.declared.requests.Request.TheVariants as requests;
ghost use Rattle.run_labels.specs.declared.labels.Label.TheVariants as labels;
ghost use Rattle.run_labels.specs.declared.words.LineWord.TheVariants as linewords;
ghost use Rattle.cluster_record.specs.RecordState.{entry_of};
ghost use Rattle.node_core.specs.Lending.{nothing_lent};
ghost use Rattle.node_core.specs.Nodes.{MayReserve};
ghost use Rattle.node_core.specs.Payloads.{payload_of};
ghost use Rattle.ckpt_machine.specs.Asking.{MayCome};
ghost use Rattle.ckpt_machine.specs.Due.{MayBegin, declared_at};
ghost use Rattle.ckpt_machine.specs.Nodes.{node_at, nodes_after, replica_in};
ghost use Rattle.client_calls.specs.CopyHands.{copy_hand, with_copy_room};
ghost use Rattle.client_calls.specs.HandRooms.{copy_room};
ghost use Rattle.client_calls.specs.Lending.{IsLentBy};
ghost use Rattle.world_core.specs.CommitLending.{IsLentAt};
ghost use Rattle.world_core.specs.Copying.{IsNoReservation, CanCopy, CanTakeCopy, IsCopyPut, copied_over, nodes_copied};
ghost use Rattle.world_core.specs.HandsState.{hand_at, set_at};
ghost use Rattle.world_core.specs.Happenings.{Adds, Begins, IsIdle, IsNext, IsStep};
ghost use Rattle.world_core.specs.Shows.{HasNumbersLeft, IsShown, number_in};

use crate::world::World;
use ckpt_types::{
    ActorName, CallId, CkptId, Moment, NODES_MAX, NodeId, Op, OpWord, Outcome, SharedUpdate, Who,
};
use client_calls::{
    CopyHand, clear_copy, commit_lent, idle_label, let_go_copy, look_word, looked, place_copy,
    said_of_node, served, stepped, told_details,
};
use cluster_nodes::Nodes;
use cluster_record::Record;
use node_core::Lent;
use node_msgs::{Details, Next, RecordStep, Reply, Request, StepReply, Verb};
use replica::Replica;
use run_labels::{Label, RunLog, Said};
use snap_copy::Snap;
use std::alloc::{AllocError, Global};

impl World {
    /// The copying of a node begins, or a word answers its line. Where the memory that it takes is refused, it ends.
    #[inline(never)]
    pub(crate) fn begin_copy(&mut self, alloc: Global, r: NodeId, log: &mut RunLog)
        requires node { r < nodes_max }
        requires shown { IsShown self.old }
        requires roomy { HasNumbersLeft self.old }
        requires spare { 1 ≤ log.old.spare }
        ensures { Adds log.old log.new (Begins (Node r) ops.Copy self.old self.new) }
    {
        if let Some(word) = self.word_for_node(r) {
            log.push(said_of_node(r, word));
            return;
        }
        let call = self.next_copy(r);
        let end = self.put_copy(alloc, r, call);
        log.push(Label::Began {
            call,
            op: Op::Copy,
            end,
            details: Details::Nothing,
        });
    }

    // The word that answers the line of a node, where its copying may not begin.
    fn word_for_node(&self, r: NodeId) -> Option<Said>
        requires node { r < nodes_max }
        requires shown { IsShown self.now }
        ensures { MatchOption result ((hand_at self.now.hands (Actor (Node r)) ≡ None) × MayBegin self.now.cluster (Node r) asks.Copy) (λ word. Begins (Node r) ops.Copy self.now self.now (labels.Word (Actor (Node r)) (linewords.Op opwords.Copy) word)) }
    {
        if self.hands.of_node(r).is_some() {
            return Some(Said::Busy);
        }
        if !self.cluster.is_up(r) {
            return Some(Said::Down);
        }
        None
    }

    // The name of a node's next call, which is counted by that.
    fn next_copy(&mut self, r: NodeId) -> CallId
        requires node { r < nodes_max }
        requires left { number_in (slice_get self.old.numbers r) < 2 ^ 32 - 1 }
        ensures there { r < length self.old.numbers }
        ensures call { result ≡ record { actor = Node r; number = number_in (slice_get self.old.numbers r) } }
        ensures new { self.new ≡ record self.old { numbers = slice_set self.old.numbers r (number_in (slice_get self.old.numbers r) + 1) } }
    {
        let number = self.numbers[r as usize];
        self.numbers[r as usize] = number + 1;
        CallId {
            actor: ActorName::Node(r),
            number,
        }
    }

    // The copying is in hand; where the memory for that is refused, it ends.
    fn put_copy(&mut self, alloc: Global, r: NodeId, call: CallId) -> Option<Outcome>
        requires node { r < nodes_max }
        requires actor { call.actor ≡ Node r }
        requires none { hand_at self.old.hands (Actor (Node r)) ≡ None }
        ensures { IsCopyPut r call result self.old self.new }
    {
        let Ok(hand) = CopyHand::begin(alloc, call) else {
            return Some(Outcome::NoMemory);
        };
        place_copy(self.hands.at_node(r), hand);
        None
    }

    /// The copying of a node takes its next step, or a word says that it has none in hand. Want of memory leaves the world
    /// as it was; where the step's own memory is refused, the copying is told so instead.
    #[inline(never)]
    pub(crate) fn step_copy(
        &mut self,
        alloc: Global,
        r: NodeId,
        finish: bool,
        log: &mut RunLog,
    ) -> Result<(), AllocError>
        requires shown { IsShown self.old }
        requires roomy { HasNumbersLeft self.old }
        requires spare { 1 ≤ log.old.spare }
        ensures ok { OnOk result (Adds log.old log.new (λ label. IsStep (Actor (Node r)) self.old self.new label ⊎ IsIdle (Actor (Node r)) finish self.old self.new label)) }
        ensures err { OnErr result ((self.new ≡ self.old) × (log.new.labels ≡ log.old.labels)) }
    {
        let Some(hand) = self.hands.of_node(r) else {
            log.push(idle_label(Who::Actor(ActorName::Node(r)), finish));
            return Ok(());
        };
        let next = hand.next(&self.cluster);
        self.copy_next(alloc, r, next, log)
    }

    // The copying takes the step that is next for it.
    fn copy_next(
        &mut self,
        alloc: Global,
        r: NodeId,
        next: Next,
        log: &mut RunLog,
    ) -> Result<(), AllocError>
        requires next { IsNext self.old (Actor (Node r)) next }
        requires shown { IsShown self.old }
        requires roomy { HasNumbersLeft self.old }
        requires spare { 1 ≤ log.old.spare }
        ensures ok { OnOk result (Adds log.old log.new (IsStep (Actor (Node r)) self.old self.new)) }
        ensures err { OnErr result ((self.new ≡ self.old) × (log.new.labels ≡ log.old.labels)) }
    {
        match next {
            Next::Serve(q, request) => self.copy_at(alloc, r, q, &request, log),
            Next::Event(step) => self.copy_event(r, step, log),
            Next::End(end) => {
                self.copy_look(r, end, log);
                Ok(())
            }
        }
    }

    // Its step at a node.
    fn copy_at(
        &mut self,
        alloc: Global,
        r: NodeId,
        q: NodeId,
        request: &Request,
        log: &mut RunLog,
    ) -> Result<(), AllocError>
        requires next { IsNext self.old (Actor (Node r)) (nexts.Serve q request.now) }
        requires shown { IsShown self.old }
        requires roomy { HasNumbersLeft self.old }
        requires spare { 1 ≤ log.old.spare }
        ensures ok { OnOk result (Adds log.old log.new (IsStep (Actor (Node r)) self.old self.new)) }
        ensures err { OnErr result ((self.new ≡ self.old) × (log.new.labels ≡ log.old.labels)) }
    {
        let Request::Reserve(ckpt) = request else {
            return self.copy_serve(alloc, r, q, request, log);
        };
        self.copy_reserve(alloc, r, q, *ckpt, log);
        Ok(())
    }

    // Its step of the record: no other than a completion is one of a copying.
    fn copy_event(
        &mut self,
        r: NodeId,
        step: RecordStep,
        log: &mut RunLog,
    ) -> Result<(), AllocError>
        requires next { IsNext self.old (Actor (Node r)) (nexts.Event step) }
        requires shown { IsShown self.old }
        requires roomy { HasNumbersLeft self.old }
        requires spare { 1 ≤ log.old.spare }
        ensures ok { OnOk result (Adds log.old log.new (IsStep (Actor (Node r)) self.old self.new)) }
        ensures err { OnErr result ((self.new ≡ self.old) × (log.new.labels ≡ log.old.labels)) }
    {
        let RecordStep::Complete(ckpt, _, moment) = step else {
            unreachable!()
        };
        self.copy_complete(r, ckpt, moment, log)
    }

    // The node reserves for a checkpoint that it lacks, of which the copying has room for a snapshot from then on. Where
    // the memory for either is refused, neither is there, and the copying ends.
    #[inline(never)]
    fn copy_reserve(&mut self, alloc: Global, r: NodeId, q: NodeId, ckpt: CkptId, log: &mut RunLog)
        requires next { IsNext self.old (Actor (Node r)) (nexts.Serve q (requests.Reserve ckpt)) }
        requires node { r < nodes_max }
        requires shown { IsShown self.old }
        requires roomy { HasNumbersLeft self.old }
        requires spare { 1 ≤ log.old.spare }
        ensures { Adds log.old log.new (IsStep (Actor (Node r)) self.old self.new) }
    {
        let slot = self.hands.at_node(r);
        let Some(hand) = slot else { unreachable!() };
        let call = hand.call();
        let reply = reserve(alloc, &self.cluster, &mut self.nodes, hand, q, ckpt);
        let end = hand.take(&self.cluster, &reply);
        let_go_copy(slot, &end);
        log.push(served(
            call,
            OpWord::Copy,
            &Request::Reserve(ckpt),
            q,
            &reply,
            end,
            Details::Nothing,
        ));
    }

    // A node answers a request of the copying, which has its snapshot back behind that.
    #[inline(never)]
    fn copy_serve(
        &mut self,
        alloc: Global,
        r: NodeId,
        q: NodeId,
        request: &Request,
        log: &mut RunLog,
    ) -> Result<(), AllocError>
        requires next { IsNext self.old (Actor (Node r)) (nexts.Serve q request.now) }
        requires replica { IsNoReservation request.now }
        requires node { r < nodes_max }
        requires shown { IsShown self.old }
        requires roomy { HasNumbersLeft self.old }
        requires spare { 1 ≤ log.old.spare }
        ensures ok { OnOk result (Adds log.old log.new (IsStep (Actor (Node r)) self.old self.new)) }
        ensures err { OnErr result ((self.new ≡ self.old) × (log.new.labels ≡ log.old.labels)) }
    {
        let slot = self.hands.at_node(r);
        let Some(hand) = slot else { unreachable!() };
        let call = hand.call();
        let mut lent = lend(alloc, hand, request, &self.nodes, q)?;
        lent.snap = hand.lend_snapshot();
        let reply = self
            .nodes
            .serve(alloc, q, &self.cluster, request, &mut lent);
        hand.keep_snapshot(lent.snap.take());
        let end = hand.take(&self.cluster, &reply);
        let details = told_details(&end, &reply, lent);
        let_go_copy(slot, &end);
        log.push(served(call, OpWord::Copy, request, q, &reply, end, details));
        Ok(())
    }

    // The node is complete for a checkpoint from now on, with what the copying has pulled, and with the slot of its update
    // where that is staged on the others.
    #[inline(never)]
    fn copy_complete(
        &mut self,
        r: NodeId,
        ckpt: CkptId,
        moment: Option<Moment>,
        log: &mut RunLog,
    ) -> Result<(), AllocError>
        requires next { IsNext self.old (Actor (Node r)) (nexts.Event (events.Complete ckpt r moment)) }
        requires node { r < nodes_max }
        requires shown { IsShown self.old }
        requires roomy { HasNumbersLeft self.old }
        requires spare { 1 ≤ log.old.spare }
        ensures ok { OnOk result (Adds log.old log.new (IsStep (Actor (Node r)) self.old self.new)) }
        ensures err { OnErr result ((self.new ≡ self.old) × (log.new.labels ≡ log.old.labels)) }
    {
        let slot = self.hands.at_node(r);
        let Some(hand) = slot else { unreachable!() };
        let call = hand.call();
        let update = hand.share_update()?;
        self.cluster.complete(ckpt, r);
        self.cluster.sweep();
        let end = hand.take_done(&self.cluster);
        self.nodes.free_gone(&self.cluster);
        self.snapshots.free_gone(&self.cluster);
        complete(
            &self.cluster,
            &mut self.nodes,
            ckpt,
            r,
            hand.snapshot(),
            call,
            update,
            moment,
        );
        let_go_copy(slot, &end);
        log.push(stepped(
            call,
            OpWord::Copy,
            Verb::Complete,
            Some(ckpt),
            Some(r),
            StepReply::Ok,
            end,
        ));
        Ok(())
    }

    // The record alone decides how the copying ends.
    #[inline(never)]
    fn copy_look(&mut self, r: NodeId, end: Outcome, log: &mut RunLog)
        requires next { IsNext self.old (Actor (Node r)) (nexts.End end) }
        requires node { r < nodes_max }
        requires shown { IsShown self.old }
        requires spare { 1 ≤ log.old.spare }
        ensures { Adds log.old log.new (IsStep (Actor (Node r)) self.old self.new) }
    {
        let slot = self.hands.at_node(r);
        let Some(hand) = slot else { unreachable!() };
        let call = hand.call();
        clear_copy(slot);
        let reply = look_word(&end);
        log.push(looked(call, OpWord::Copy, reply, end, Details::Nothing));
    }
}

// Room for a snapshot of a checkpoint, and then the reservation on the node. A replica that stands there is used again.
fn reserve(
    alloc: Global,
    cluster: &Record,
    nodes: &mut Nodes,
    hand: &mut CopyHand,
    r: NodeId,
    ckpt: CkptId,
) -> Reply
    requires node { r < nodes_max }
    requires well_formed { IsSomeAnd (entry_of ckpt cluster.now.entries) (λ e. is_malformed e.attributes ≡ false) }
    requires may { MayCome cluster.now (node_at nodes.old r) (requests.Reserve ckpt) nothing_lent }
    ensures reply { MayReserve false result }
    ensures nodes { nodes.new ≡ nodes_after cluster.now nodes.old r (requests.Reserve ckpt) (payload_of nothing_lent) result }
    ensures hand { hand.new ≡ with_copy_room result (copy_room (declared_at cluster.now (Some ckpt))) hand.old }
    ensures eight { length nodes.old ≡ nodes_max }
{
    prove!(nodes.count() == NODES_MAX);
    let Some(entry) = cluster.entry(ckpt) else {
        unreachable!()
    };
    let Ok(room) = Snap::reserve(alloc, &entry.attributes) else {
        return Reply::NoMemory;
    };
    let reply = reserve_on(alloc, cluster, nodes, r, ckpt);
    take_room(hand, &reply, room);
    reply
}

// The reservation on the node, to which nothing is lent.
fn reserve_on(alloc: Global, cluster: &Record, nodes: &mut Nodes, r: NodeId, ckpt: CkptId) -> Reply
    requires node { r < nodes_max }
    requires may { MayCome cluster.now (node_at nodes.old r) (requests.Reserve ckpt) nothing_lent }
    ensures reply { MayReserve false result }
    ensures nodes { nodes.new ≡ nodes_after cluster.now nodes.old r (requests.Reserve ckpt) (payload_of nothing_lent) result }
{
    let mut lent = Lent::nothing();
    nodes.serve(alloc, r, cluster, &Request::Reserve(ckpt), &mut lent)
}

// The copying has the room from then on, where the reservation was done.
fn take_room(hand: &mut CopyHand, reply: &Reply, room: Snap)
    ensures { hand.new ≡ with_copy_room reply.now (Some room) hand.old }
{
    if let Reply::Done(_) = reply {
        hand.take_room(room);
    }
}

// What a copying lends to a request at a node, its snapshot aside.
fn lend(
    alloc: Global,
    hand: &CopyHand,
    request: &Request,
    nodes: &Nodes,
    q: NodeId,
) -> Result<Lent, AllocError>
    requires { q < nodes_max }
    ensures lent { IfOk result (IsLentBy ops.Copy request.now) }
    ensures there { IfOk result (IsLentAt nodes.now q request.now) }
    ensures iteration { IfOk result (λ lent. lent.iteration ≡ None) }
{
    let Request::Commit(_, ckpt) = request else {
        return hand.lend(alloc, request);
    };
    match nodes.find(q, *ckpt) {
        None => Ok(Lent::nothing()),
        Some(replica) => commit_lent(alloc, replica.slot()),
    }
}

// The replica of a node that is complete for a checkpoint takes over what was pulled, and gets the slot of the copying's
// update, where that has a moment.
fn complete(
    cluster: &Record,
    nodes: &mut Nodes,
    ckpt: CkptId,
    r: NodeId,
    pulled: &Option<Snap>,
    call: CallId,
    update: SharedUpdate,
    moment: Option<Moment>,
)
    requires node { r < nodes_max }
    requires can { CanCopy r moment pulled.now (replica_in nodes.old ckpt r) (entry_of ckpt cluster.now.entries) }
    requires nothing { update ≡ updates.Nothing }
    ensures { nodes.new ≡ nodes_copied ckpt r call moment pulled.now (entry_of ckpt cluster.now.entries) nodes.old }
{
    let (Some(entry), Some(snap)) = (cluster.entry(ckpt), pulled) else {
        return;
    };
    if entry.complete[r as usize] == 0 {
        return;
    }
    let replica = nodes.at(r, ckpt);
    take_copy(replica, snap, entry.generation, call, update, moment);
}

// A replica takes over a snapshot with this generation, and stages an update that changes nothing, where that has a
// moment.
fn take_copy(
    replica: &mut Replica,
    snap: &Snap,
    generation: u64,
    call: CallId,
    update: SharedUpdate,
    moment: Option<Moment>,
)
    requires can { CanTakeCopy moment snap.now replica.old }
    requires nothing { update ≡ updates.Nothing }
    ensures { replica.new ≡ copied_over call moment generation snap.now replica.old }
{
    // The clause of `attributes` tells that its sections keep to them.
    let _declared = snap.attributes();
    replica.complete_from(snap, generation);
    if let Some(moment) = moment {
        // It refuses nothing here.
        let _done = replica.stage(call, update, moment);
    }
}
