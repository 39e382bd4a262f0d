//! The copying to a node, in hand, and the place in which it stands.
ghost use Rattle.std.specs.Prelude.{◌≡◌, None, Some, IfOk};
ghost use Rattle.std.specs.Option.{option_and_then};
ghost use Rattle.ckpt_types.specs.declared.answers.Answer.TheVariants as answers;
ghost use Rattle.ckpt_types.specs.declared.operation.Op.TheVariants as ops;
ghost use Rattle.ckpt_types.specs.declared.update.Update.TheVariants as updates;
ghost use Rattle.node_msgs.specs.declared.replies.Reply.TheVariants as replies;
ghost use Rattle.cluster_record.specs.Calls.{left};
ghost use Rattle.cluster_record.specs.DueCopy.{IsNode};
ghost use Rattle.cluster_record.specs.Ends.{IsAtANode};
ghost use Rattle.ckpt_machine.specs.Drivers.{Rooms};
ghost use Rattle.ckpt_machine.specs.Driving.{driver_next};
ghost use Rattle.client_calls.specs.CopyHands.{IsCopyHand, copy_hand};
ghost use Rattle.client_calls.specs.Lending.{IsLentBy};
ghost use Rattle.client_calls.specs.Taking.{hand_outcome, hand_told};

use crate::copying::copy_of_snapshot;
use crate::in_hand::index_told;
use crate::lending::{lent_by, lent_of};
use ckpt_types::{Answer, CallId, Op, Outcome, SharedUpdate, Update};
use cluster_record::Record;
use drive_join::CopyCall;
use drive_update::UpdateCall;
use node_core::Lent;
use node_msgs::{Next, Reply, Request};
use snap_copy::Snap;
use std::alloc::{AllocError, Global};
use std::marker::Model;

/// A node's copying that is begun and not ended.
#[derive(Drop)]
pub struct CopyHand {
    call: CallId,
    driver: CopyCall<UpdateCall>,
    /// Its update, which changes nothing. Each replica that stages it has a share.
    update: SharedUpdate,
    /// The room for a snapshot of the checkpoint that it is at, with what it has pulled.
    snapshot: Option<Snap>,
}

impl Model for CopyHand {
    ghost use Rattle.client_calls.specs.declared.in_hand.InHand.{InHand};

    ghost Value = { InHand };

    ghost use Rattle.client_calls.specs.CopyHandView.{copy_hand_shown, ChangesNothing};

    ghost view = { copy_hand_shown };

    ghost invariant = { ChangesNothing };
}

impl CopyHand {
    /// The copying of a node, as it begins: it is at no checkpoint, and has room for no snapshot.
    pub fn begin(alloc: Global, call: CallId) -> Result<CopyHand, AllocError>
        requires { IsNode call.actor }
        ensures { IfOk result (λ hand. hand ≡ copy_hand call) }
    {
        let update = SharedUpdate::new(alloc, Update::Nothing)?;
        Ok(CopyHand {
            call,
            driver: CopyCall::begin(call, UpdateCall::begin(call, 0)),
            update,
            snapshot: None,
        })
    }

    /// An equal one, with as much room, and with a share of its update.
    pub fn copy(&self, alloc: Global) -> Result<CopyHand, AllocError>
        ensures { IfOk result (λ copy. copy ≡ self.now) }
    {
        let driver = self.driver.copy(alloc)?;
        Ok(CopyHand {
            call: self.call,
            driver,
            update: self.update.share()?,
            snapshot: copy_of_snapshot(alloc, &self.snapshot)?,
        })
    }

    /// The call, which is a copying.
    pub fn call(&self) -> CallId
        ensures value { result ≡ self.now.call }
        ensures copies { IsCopyHand self.now }
    {
        self.call
    }

    /// What it does next, by the record.
    pub fn next(&self, cluster: &Record) -> Next
        ensures next { (rooms : Rooms) → result ≡ driver_next cluster.now rooms self.now.driver }
        ensures at { IsAtANode result }
    {
        self.driver.next(cluster)
    }

    /// It takes a reply: of a node to what is next, or of the record to a step, with the record behind that. What it ends
    /// with, if it ends.
    pub fn take(&mut self, cluster: &Record, reply: &Reply) -> Option<Outcome>
        ensures new { self.new ≡ hand_told cluster.now reply.now self.old }
        ensures outcome { result ≡ hand_outcome cluster.now reply.now self.old }
    {
        let outcome = self.driver.take(cluster, reply);
        index_told(&Op::Copy, outcome)
    }

    /// It takes that the record has done its step, with the record behind that. What it ends with, if it ends.
    pub fn take_done(&mut self, cluster: &Record) -> Option<Outcome>
        ensures new { self.new ≡ hand_told cluster.now (replies.Done answers.Nothing) self.old }
        ensures outcome { result ≡ hand_outcome cluster.now (replies.Done answers.Nothing) self.old }
    {
        self.take(cluster, &Reply::Done(Answer::Nothing))
    }

    /// A share of its update.
    pub fn share_update(&self) -> Result<SharedUpdate, AllocError>
        ensures { IfOk result (λ update. update ≡ updates.Nothing) }
    {
        self.update.share()
    }

    /// What it lends to a request but to a commit, its snapshot aside: a share of its update to one that stages it.
    pub fn lend(&self, alloc: Global, request: &Request) -> Result<Lent, AllocError>
        ensures lent { IfOk result (IsLentBy ops.Copy request.now) }
        ensures iteration { IfOk result (λ lent. lent.iteration ≡ None) }
    {
        match request {
            Request::Stage(_, _, _) => Ok(lent_of(None, None, Some(self.share_update()?))),
            _ => lent_by(alloc, &Op::Copy, request),
        }
    }

    /// It has this room for a snapshot from then on, and none that it had.
    pub fn take_room(&mut self, room: Snap)
        ensures { self.new ≡ record self.old { snapshot = Some room } }
    {
        self.snapshot = Some(room);
    }

    /// Its room for a snapshot, with what it has pulled.
    pub fn snapshot(&self) -> &Option<Snap>
        ensures { result.now ≡ self.now.snapshot }
    {
        &self.snapshot
    }

    /// The room that it has for a snapshot is taken out of it, with what it has pulled.
    pub fn lend_snapshot(&mut self) -> Option<Snap>
        ensures lent { result ≡ self.old.snapshot }
        ensures new { self.new ≡ record self.old { snapshot = None } }
    {
        self.snapshot.take()
    }

    /// What was lent comes back.
    pub fn keep_snapshot(&mut self, snapshot: Option<Snap>)
        ensures { self.new ≡ record self.old { snapshot = snapshot } }
    {
        self.snapshot = snapshot;
    }
}

/// A copying that has ended is in hand no more.
pub fn let_go_copy(slot: &mut Option<CopyHand>, end: &Option<Outcome>)
    ensures { slot.new ≡ option_and_then (left end.now) slot.old }
{
    if end.is_some() {
        clear_copy(slot);
    }
}

/// The copying of a place is in hand no more. What it owns is given back here, and its callers know nothing of that.
pub fn clear_copy(slot: &mut Option<CopyHand>)
    ensures { slot.new ≡ None }
{
    *slot = None;
}

/// A copying that begins comes to its place. None is there, so nothing is given back.
pub fn place_copy(slot: &mut Option<CopyHand>, hand: CopyHand)
    requires { slot.old ≡ None }
    ensures { slot.new ≡ Some hand }
{
    if slot.is_some() {
        unreachable!()
    }
    *slot = Some(hand);
}
