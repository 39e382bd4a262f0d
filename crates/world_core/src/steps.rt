//! The event by which a call takes its next step.
ghost use Rattle.std.specs.Prelude.{◌≡◌, ◌≢◌, ◌⊎◌, ◌<◌, ◌≤◌, Some, None, true, IfOk, IsSome, OnOk, OnErr, slice_get};
ghost use Rattle.ckpt_types.specs.declared.identities.ActorName.TheVariants.{Client};
ghost use Rattle.ckpt_types.specs.declared.identities.Who.TheVariants as whos;
ghost use Rattle.node_msgs.specs.declared.next.Next.TheVariants as nexts;
ghost use Rattle.node_msgs.specs.declared.next.RecordStep.TheVariants as events;
ghost use Rattle.node_msgs.specs.declared.requests.Request.{Request};
ghost use Rattle.node_msgs.specs.declared.requests.Request.TheVariants as requests;
ghost use Rattle.world_core.specs.Settling.{without_making_of};
ghost use Rattle.ckpt_machine.specs.Driving.{event_ckpt, event_refusal};
ghost use Rattle.ckpt_machine.specs.Granting.{event_granted};
ghost use Rattle.ckpt_machine.specs.RecordReady.{IsPlain, IsRefusedAs};
ghost use Rattle.client_calls.specs.declared.in_hand.InHand.{InHand};
ghost use Rattle.world_core.specs.LiveRooms.{room_is_taken};
ghost use Rattle.world_core.specs.Alone.{calls_gone, ended_at, going_with, going_with_look, gone_with, syncs_gone};
ghost use Rattle.ckpt_machine.specs.After.{goes_with};
ghost use Rattle.client_calls.specs.Names.{client_by, IsClientName};
ghost use Rattle.world_core.specs.HandsState.{hand_at, without_those};
ghost use Rattle.world_core.specs.Shows.{IsShown, HasNumbersLeft};
ghost use Rattle.world_core.specs.Happenings.{Adds, IsNext, IsStep, IsIdle};
ghost use Rattle.ckpt_types.specs.declared.identities.CallId.{CallId};
ghost use Rattle.ckpt_types.specs.Limits.{client_numbers, nodes_max};
ghost use Rattle.client_calls.specs.Lending.{IsLentBy};
ghost use Rattle.world_core.specs.CommitLending.{IsLentAt};

use crate::applying::apply;
use crate::gone::gone_by;
use crate::hands::Hands;
use crate::world::World;
use ckpt_types::{ActorName, CallId, CkptId, NodeId, Op, Outcome, Who};
use client_calls::{
    DriverKind, Table, clear, client_by, commit_lent, elements_in, event_ckpt, event_granted,
    event_node, hand_over, idle_label, keep_iteration, lend_iteration, lent_by, let_go, look_word,
    looked, refusal_word, reserve_for, served, settle, settle_look, stepped, told_read,
};
use cluster_nodes::Nodes;
use node_core::Lent;
use node_msgs::{Next, RecordStep, Reply, Request, StepReply};
use run_labels::RunLog;
use std::alloc::{AllocError, Global};

impl World {
    /// The call of a client takes its next step, or a word says that it has none in hand. Want of memory leaves
    /// the world as it was; where the step's own memory is refused, the call is told so instead.
    pub(crate) fn step(
        &mut self,
        alloc: Global,
        c: u8,
        finish: bool,
        log: &mut RunLog,
    ) -> Result<(), AllocError>
        requires client { c < client_numbers }
        requires shown { IsShown self.old }
        requires roomy { HasNumbersLeft self.old }
        requires spare { 1 ≤ log.old.spare }
        ensures ok { OnOk result (Adds log.old log.new (λ label. IsStep (whos.Actor (Client c)) self.old self.new label ⊎ IsIdle (whos.Actor (Client c)) finish self.old self.new label)) }
        ensures err { OnErr result ((self.new ≡ self.old) × (log.new.labels ≡ log.old.labels)) }
    {
        let Some(hand) = self.hands.of_client(c) else {
            log.push(idle_label(Who::Actor(ActorName::Client(c)), finish));
            return Ok(());
        };
        let DriverKind::Update(update) = &hand.driver.kind else {
            return self.driven_step(alloc, c, log);
        };
        if update.settles() {
            return self.driven_step(alloc, c, log);
        }
        let next = update.next(&self.cluster);
        self.update_step(alloc, c, next, log)
    }

    /// An asynchronous call takes its next step, or a word says that none of this name is under way. Want of memory leaves
    /// the world as it was.
    #[inline(never)]
    pub(crate) fn step_alone(
        &mut self,
        alloc: Global,
        call: CallId,
        finish: bool,
        log: &mut RunLog,
    ) -> Result<(), AllocError>
        requires shown { IsShown self.old }
        requires roomy { HasNumbersLeft self.old }
        requires spare { 1 ≤ log.old.spare }
        ensures ok { OnOk result (Adds log.old log.new (λ label. IsStep (whos.Call call) self.old self.new label ⊎ IsIdle (whos.Call call) finish self.old self.new label)) }
        ensures err { OnErr result ((self.new ≡ self.old) × (log.new.labels ≡ log.old.labels)) }
    {
        let who = Who::Call(call);
        let Some(hand) = self.hands.of_call(call) else {
            log.push(idle_label(who, finish));
            return Ok(());
        };
        let c = client_by(who);
        let next = hand.driver.next(&self.cluster, self.tables.get(c), c);
        self.take_next(alloc, who, next, log)
    }

    /// A call that its client waits for takes the step that its driver tells. What is told of that by a reference lies
    /// here, so that the steps which are taken most clear no room for it.
    #[inline(never)]
    pub(crate) fn driven_step(
        &mut self,
        alloc: Global,
        c: u8,
        log: &mut RunLog,
    ) -> Result<(), AllocError>
        requires client { c < client_numbers }
        requires held { IsSome (hand_at self.old.hands (whos.Actor (Client c))) }
        requires shown { IsShown self.old }
        requires roomy { HasNumbersLeft self.old }
        requires spare { 1 ≤ log.old.spare }
        ensures ok { OnOk result (Adds log.old log.new (IsStep (whos.Actor (Client c)) self.old self.new)) }
        ensures err { OnErr result ((self.new ≡ self.old) × (log.new.labels ≡ log.old.labels)) }
    {
        let Some(hand) = self.hands.of_client(c) else {
            unreachable!()
        };
        let next = hand.driver.next(&self.cluster, self.tables.get(c), c);
        self.take_next(alloc, Who::Actor(ActorName::Client(c)), next, log)
    }

    // The call takes the step that is next for it.
    #[inline(always)]
    fn take_next(
        &mut self,
        alloc: Global,
        who: Who,
        next: Next,
        log: &mut RunLog,
    ) -> Result<(), AllocError>
        requires next { IsNext self.old who next }
        requires client { IsClientName who }
        requires shown { IsShown self.old }
        requires roomy { HasNumbersLeft self.old }
        requires spare { 1 ≤ log.old.spare }
        ensures ok { OnOk result (Adds log.old log.new (IsStep who self.old self.new)) }
        ensures err { OnErr result ((self.new ≡ self.old) × (log.new.labels ≡ log.old.labels)) }
    {
        match next {
            Next::Serve(r, Request::Read(ckpt)) => {
                return self.read_step(alloc, who, r, ckpt, log);
            }
            Next::Serve(r, request) => return self.node_step(alloc, who, r, &request, log),
            Next::Event(RecordStep::Enter) => self.enter_step(alloc, who, log),
            Next::Event(RecordStep::Hold(r)) => self.hold_step(who, r, log),
            Next::Event(RecordStep::Activate(r)) => self.activate_step(who, r, log),
            // A node's copying alone comes to that.
            Next::Event(RecordStep::Complete(_, _, _)) => unreachable!(),
            Next::Event(step) => self.record_step(alloc, who, step, log),
            Next::End(end) => self.look_step(who, end, log),
        }
        Ok(())
    }

    // The active reads for the call. Nothing is lent but the room for what it gives.
    #[inline(never)]
    fn read_step(
        &mut self,
        alloc: Global,
        who: Who,
        r: NodeId,
        ckpt: CkptId,
        log: &mut RunLog,
    ) -> Result<(), AllocError>
        requires next { IsNext self.old who (nexts.Serve r (requests.Read ckpt)) }
        requires client { IsClientName who }
        requires shown { IsShown self.old }
        requires roomy { HasNumbersLeft self.old }
        requires spare { 1 ≤ log.old.spare }
        ensures ok { OnOk result (Adds log.old log.new (IsStep who self.old self.new)) }
        ensures err { OnErr result ((self.new ≡ self.old) × (log.new.labels ≡ log.old.labels)) }
    {
        let slot = self.hands.at(who);
        let Some(hand) = slot else { unreachable!() };
        let call = hand.call;
        let op = hand.word();
        let elements = elements_in(&hand.op);
        let mut read = reserve_for(alloc, elements)?;
        let reply = self
            .nodes
            .read(r, ckpt, elements, self.cluster.now(), &mut read);
        let end = hand.take(&self.cluster, &reply);
        let_go(slot, &end);
        self.end_alone(who, &end);
        let details = told_read(&end, &reply, read);
        log.push(served(call, op, &Request::Read(ckpt), r, &reply, end, details));
        Ok(())
    }

    // A node answers a request of the call. What a weak write asks behind its marks has a step of its own.
    #[inline(always)]
    fn node_step(
        &mut self,
        alloc: Global,
        who: Who,
        r: NodeId,
        request: &Request,
        log: &mut RunLog,
    ) -> Result<(), AllocError>
        requires next { IsNext self.old who (nexts.Serve r request.now) }
        requires client { IsClientName who }
        requires shown { IsShown self.old }
        requires roomy { HasNumbersLeft self.old }
        requires spare { 1 ≤ log.old.spare }
        ensures ok { OnOk result (Adds log.old log.new (IsStep who self.old self.new)) }
        ensures err { OnErr result ((self.new ≡ self.old) × (log.new.labels ≡ log.old.labels)) }
    {
        match request {
            Request::Element(_, _) | Request::Unmark(_, _) => {
                self.marked_step(who, r, request, log);
                Ok(())
            }
            _ => self.serve_step(alloc, who, r, request, log),
        }
    }

    // A node answers any request of the call.
    #[inline(never)]
    fn serve_step(
        &mut self,
        alloc: Global,
        who: Who,
        r: NodeId,
        request: &Request,
        log: &mut RunLog,
    ) -> Result<(), AllocError>
        requires next { IsNext self.old who (nexts.Serve r request.now) }
        requires client { IsClientName who }
        requires shown { IsShown self.old }
        requires roomy { HasNumbersLeft self.old }
        requires spare { 1 ≤ log.old.spare }
        ensures ok { OnOk result (Adds log.old log.new (IsStep who self.old self.new)) }
        ensures err { OnErr result ((self.new ≡ self.old) × (log.new.labels ≡ log.old.labels)) }
    {
        let slot = self.hands.at(who);
        let Some(hand) = slot else { unreachable!() };
        let call = hand.call;
        let op = hand.word();
        let c = client_by(who);
        let mut lent = lend(alloc, &hand.op, request, &self.nodes, r)?;
        lent.iteration = lend_iteration(self.tables.at(c), hand, request);
        hand_over(&mut hand.snapshot, &mut lent.snap);
        let reply = self
            .nodes
            .serve(alloc, r, &self.cluster, request, &mut lent);
        keep_iteration(
            self.tables.at(c),
            &hand.op,
            request,
            &reply,
            lent.iteration.take(),
        );
        hand_over(&mut lent.snap, &mut hand.snapshot);
        let end = hand.take(&self.cluster, &reply);
        let details = hand.tell(request, &reply, &end, lent);
        let_go(slot, &end);
        self.end_alone(who, &end);
        log.push(served(call, op, request, r, &reply, end, details));
        Ok(())
    }

    // A client becomes live, with room for its handles and iterations; where that is refused, the call ends.
    #[inline(never)]
    fn enter_step(&mut self, alloc: Global, who: Who, log: &mut RunLog)
        requires next { IsNext self.old who (nexts.Event events.Enter) }
        requires client { IsClientName who }
        requires shown { IsShown self.old }
        requires roomy { HasNumbersLeft self.old }
        requires spare { 1 ≤ log.old.spare }
        ensures { Adds log.old log.new (IsStep who self.old self.new) }
    {
        match self.tables.at(client_by(who)).take_room(alloc) {
            Ok(()) => self.record_step(alloc, who, RecordStep::Enter, log),
            Err(AllocError) => self.refuse_step(who, RecordStep::Enter, &Reply::NoMemory, log),
        }
    }

    // A step is refused by the record, or the memory that it takes. The call takes that, and ends.
    #[inline(never)]
    fn refuse_step(&mut self, who: Who, step: RecordStep, reply: &Reply, log: &mut RunLog)
        requires next { IsNext self.old who (nexts.Event step) }
        requires plain { IsPlain step }
        requires refused { (hand : InHand) → hand_at self.old.hands who ≡ Some hand → IsRefusedAs (event_refusal self.old.cluster step hand.driver) step reply.now }
        requires client { IsClientName who }
        requires shown { IsShown self.old }
        requires roomy { HasNumbersLeft self.old }
        requires spare { 1 ≤ log.old.spare }
        ensures { Adds log.old log.new (IsStep who self.old self.new) }
    {
        let slot = self.hands.at(who);
        let Some(hand) = slot else { unreachable!() };
        let call = hand.call;
        let op = hand.word();
        let ckpt = event_ckpt(&self.cluster, &hand.driver, &step);
        let node = event_node(&hand.driver, &step);
        let end = hand.take_refusal(&self.cluster, reply);
        let_go(slot, &end);
        self.end_alone(who, &end);
        log.push(stepped(call, op, step.verb(), ckpt, node, refusal_word(reply), end));
    }

    // The call takes a step of the record, which that may refuse; where its memory is refused, the call ends. A client
    // that becomes live has its room. An open may add a replica.
    #[inline(never)]
    fn record_step(&mut self, alloc: Global, who: Who, step: RecordStep, log: &mut RunLog)
        requires next { IsNext self.old who (nexts.Event step) }
        requires plain { IsPlain step }
        requires has_room { step ≡ events.Enter → room_is_taken (slice_get self.old.tables (client_by who)) ≡ true }
        requires client { IsClientName who }
        requires shown { IsShown self.old }
        requires roomy { HasNumbersLeft self.old }
        requires spare { 1 ≤ log.old.spare }
        ensures { Adds log.old log.new (IsStep who self.old self.new) }
    {
        let slot = self.hands.at(who);
        let Some(hand) = slot else { unreachable!() };
        let ckpt = match event_granted(&self.cluster, &hand.driver, &step) {
            Ok(ckpt) => ckpt,
            Err(maker) => {
                return self.refuse_step(who, step, &Reply::Held(maker), log);
            }
        };
        let call = hand.call;
        let op = hand.word();
        let node = event_node(&hand.driver, &step);
        let verb = step.verb();
        let before = gone_by(&self.cluster);
        let Ok(()) = apply(
            alloc,
            &mut self.cluster,
            &mut self.nodes,
            &mut self.snapshots,
            call,
            &hand.driver,
            step,
            ckpt,
        ) else {
            return self.refuse_step(who, step, &Reply::NoMemory, log);
        };
        let c = client_by(who);
        let table = self.tables.at(c);
        let closed = table.handle_closed(&hand.op);
        settle(table, &self.cluster, &hand.op, &step, ckpt);
        let end = hand.take_done(&self.cluster, ckpt);
        let_go(slot, &end);
        self.let_go_with(c, &step, closed);
        self.free_gone_since(before);
        self.end_alone(who, &end);
        log.push(stepped(call, op, verb, ckpt, node, StepReply::Ok, end));
    }

    /// The record alone decides how the call ends; what it is making is undone.
    pub(crate) fn look_step(&mut self, who: Who, due: Outcome, log: &mut RunLog)
        requires next { IsNext self.old who (nexts.End due) }
        requires client { IsClientName who }
        requires shown { IsShown self.old }
        requires spare { 1 ≤ log.old.spare }
        ensures { Adds log.old log.new (IsStep who self.old self.new) }
    {
        let slot = self.hands.at(who);
        let Some(hand) = slot else { unreachable!() };
        let call = hand.call;
        let op = hand.word();
        let (end, details) = hand.look(due);
        let reply = look_word(&end);
        let making = hand.driver.making();
        let c = client_by(who);
        let table = self.tables.at(c);
        let closed = table.handle_closed(&hand.op);
        settle_look(table, &hand.op, &end);
        clear(slot);
        self.let_go_with_look(c, &end, closed);
        self.unmake(making);
        self.end_alone(who, &Some(end));
        log.push(looked(call, op, reply, end, details));
    }

    // An asynchronous call that has ended is in hand no more, and its client is to be told.
    #[inline(always)]
    pub(crate) fn end_alone(&mut self, who: Who, end: &Option<Outcome>)
        requires { IsClientName who }
        ensures { self.new ≡ ended_at who end.now self.old }
    {
        if let (Who::Call(call), Some(end)) = (who, end) {
            self.hands.forget(call);
            self.tables.at(client_by(who)).finish(call, *end);
        }
    }

    // What goes with the handle that a close has closed, and with a client that has left: asynchronous calls.
    #[inline(always)]
    fn let_go_with(&mut self, c: u8, step: &RecordStep, closed: Option<u32>)
        requires { c < client_numbers }
        ensures { self.new ≡ gone_with (going_with step.now) c closed self.old }
    {
        match step {
            RecordStep::Close => self.syncs_gone(c, closed),
            RecordStep::Leave => self.calls_gone(c),
            _ => {}
        }
    }

    // What goes with the handle that a look has closed: asynchronous synchronisations.
    fn let_go_with_look(&mut self, c: u8, end: &Outcome, closed: Option<u32>)
        requires { c < client_numbers }
        ensures { self.new ≡ gone_with (going_with_look end.now) c closed self.old }
    {
        match end {
            Outcome::Done(_) => self.syncs_gone(c, closed),
            _ => {}
        }
    }

    // The asynchronous synchronisations of a client over a handle that is closed go, if one is.
    fn syncs_gone(&mut self, c: u8, closed: Option<u32>)
        requires { c < client_numbers }
        ensures { self.new ≡ syncs_gone c closed self.old }
    {
        let table = self.tables.at(c);
        forget_syncs(&mut self.hands, table, c, closed);
        table.forget_over(closed);
    }

    // All asynchronous calls of a client go.
    fn calls_gone(&mut self, c: u8)
        requires { c < client_numbers }
        ensures { self.new ≡ calls_gone c self.old }
    {
        self.hands.forget_of(c);
        self.tables.at(c).forget_all();
    }

    // What a call is making is undone, if it is making something; what is over goes too, and what was kept for it.
    fn unmake(&mut self, making: Option<CkptId>)
        ensures { self.new ≡ without_making_of making self.old }
    {
        if let Some(ckpt) = making {
            self.cluster.undo_create(ckpt);
            self.cluster.sweep();
            self.free_gone();
        }
    }
}

// What a call of this operation lends to a request at a node, an iteration aside.
fn lend(
    alloc: Global,
    op: &Op,
    request: &Request,
    nodes: &Nodes,
    r: NodeId,
) -> Result<Lent, AllocError>
    requires { r < nodes_max }
    ensures lent { IfOk result (IsLentBy op.now request.now) }
    ensures there { IfOk result (IsLentAt nodes.now r request.now) }
    ensures iteration { IfOk result (λ lent. lent.iteration ≡ None) }
{
    let Request::Commit(_, ckpt) = request else {
        return lent_by(alloc, op, request);
    };
    match nodes.find(r, *ckpt) {
        None => Ok(Lent::nothing()),
        Some(replica) => commit_lent(alloc, replica.slot()),
    }
}

// Those that go are in hand no more.
fn forget_syncs(hands: &mut Hands, table: &Table, c: u8, closed: Option<u32>)
    requires { c < client_numbers }
    ensures { hands.new ≡ without_those c (λ v. goes_with closed (Client c) table.now.pending v) hands.old }
{
    let Some(pending) = table.pending() else {
        return;
    };
    hands.forget_over(c, closed, pending);
}
