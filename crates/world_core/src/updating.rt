//! The steps by which an update is staged on the nodes, and committed.
ghost use Rattle.std.specs.Prelude.{◌≡◌, ◌≢◌, [], ◌∷◌, ◌++◌, ◌<◌, ◌≤◌, Some, None, OnOk, OnErr};
ghost use Rattle.ckpt_types.specs.Limits.{client_numbers, nodes_max};
ghost use Rattle.node_msgs.specs.declared.next.Next.TheVariants as nexts;
ghost use Rattle.node_msgs.specs.declared.requests.Request.TheVariants as requests;
ghost use Rattle.node_msgs.specs.Requests.{ckpt_of};
ghost use Rattle.node_msgs.specs.Steps.{verb_of, word_of};
ghost use Rattle.node_msgs.specs.declared.details.Details.TheVariants as beside;
ghost use Rattle.run_labels.specs.declared.labels.Label.TheVariants as labels;
ghost use Rattle.cluster_record.specs.Calls.{left};
ghost use Rattle.drive_update.specs.UpdateStates.{IsOfUpdate};
ghost use Rattle.ckpt_types.specs.OpWord.{word_of_op};
ghost use Rattle.node_core.specs.StageReplies.{reply_refused};
ghost use Rattle.cluster_record.specs.Ends.{served_done};
ghost use Rattle.client_calls.specs.HandSteps.{end_by, hand_taken};
ghost use Rattle.ckpt_machine.specs.Taking.{AsksNode};
ghost use Rattle.world_core.specs.Happenings.{Adds, IsNext, IsStep};
ghost use Rattle.ckpt_types.specs.declared.identities.ActorName.TheVariants.{Client};
ghost use Rattle.ckpt_types.specs.declared.identities.Who.TheVariants.{Actor};
ghost use Rattle.world_core.specs.HandsState.{hand_at};
ghost use Rattle.world_core.specs.Shows.{IsShown, HasNumbersLeft};
ghost use Rattle.client_calls.specs.UpdateSteps.{IsUpdate};

use crate::world::World;
use ckpt_types::{ActorName, CallId, CkptId, Moment, NodeId, Who};
use client_calls::{InHand, clear, creates, done, goes_on, let_go, served, share_update};
use cluster_record::Record;
use node_core::reply_refused;
use node_msgs::{Details, Next, Request, Verb};
use replica::StageRefused;
use run_labels::RunLog;
use std::alloc::{AllocError, Global};

impl World {
    /// An update stages at a node or commits there, or claims or withdraws what a call has left there that is gone, or the
    /// record alone decides how it ends.
    #[inline(always)]
    pub(crate) fn update_step(
        &mut self,
        alloc: Global,
        c: u8,
        next: Next,
        log: &mut RunLog,
    ) -> Result<(), AllocError>
        requires next { IsNext self.old (Actor (Client c)) next }
        requires update { (h : InHand) → hand_at self.old.hands (Actor (Client c)) ≡ Some h → IsUpdate h.driver }
        requires is { IsOfUpdate next }
        requires client { c < client_numbers }
        requires shown { IsShown self.old }
        requires roomy { HasNumbersLeft self.old }
        requires spare { 1 ≤ log.old.spare }
        ensures ok { OnOk result (Adds log.old log.new (IsStep (Actor (Client c)) self.old self.new)) }
        ensures err { OnErr result ((self.new ≡ self.old) × (log.new.labels ≡ log.old.labels)) }
    {
        match next {
            Next::Serve(r, Request::Stage(call, ckpt, moment)) => {
                self.stage_step(alloc, c, r, call, ckpt, moment, log)
            }
            Next::Serve(r, Request::Commit(call, ckpt)) => {
                self.commit_step(alloc, c, r, call, ckpt, log)
            }
            Next::End(end) => {
                self.look_step(Who::Actor(ActorName::Client(c)), end, log);
                Ok(())
            }
            Next::Serve(_, _) => self.driven_step(alloc, c, log),
            Next::Event(_) => unreachable!(),
        }
    }

    // A node stages the update of the call.
    #[inline(always)]
    fn stage_step(
        &mut self,
        alloc: Global,
        c: u8,
        r: NodeId,
        asked: CallId,
        ckpt: CkptId,
        moment: Moment,
        log: &mut RunLog,
    ) -> Result<(), AllocError>
        requires next { IsNext self.old (Actor (Client c)) (nexts.Serve r (requests.Stage asked ckpt moment)) }
        requires update { (h : InHand) → hand_at self.old.hands (Actor (Client c)) ≡ Some h → IsUpdate h.driver }
        requires client { c < client_numbers }
        requires shown { IsShown self.old }
        requires roomy { HasNumbersLeft self.old }
        requires spare { 1 ≤ log.old.spare }
        ensures ok { OnOk result (Adds log.old log.new (IsStep (Actor (Client c)) self.old self.new)) }
        ensures err { OnErr result ((self.new ≡ self.old) × (log.new.labels ≡ log.old.labels)) }
    {
        let slot = self.hands.at_client(c);
        let Some(hand) = slot else { unreachable!() };
        let call = hand.call;
        let op = hand.word();
        let update = share_update(alloc, &hand.op)?;
        let replica = self.nodes.at(r, ckpt);
        if let Err(refused) = replica.stage(asked, update, moment) {
            let request = Request::Stage(asked, ckpt, moment);
            refuse_stage(slot, &self.cluster, r, &request, refused, log);
            return Ok(());
        }
        hand.staged(&self.cluster, ckpt, r);
        log.push(goes_on(call, op, Verb::Stage, ckpt, r));
        Ok(())
    }

    // A node commits what the call has staged there. A creation tells the identifier of its section.
    #[inline(always)]
    fn commit_step(
        &mut self,
        alloc: Global,
        c: u8,
        r: NodeId,
        asked: CallId,
        ckpt: CkptId,
        log: &mut RunLog,
    ) -> Result<(), AllocError>
        requires next { IsNext self.old (Actor (Client c)) (nexts.Serve r (requests.Commit asked ckpt)) }
        requires update { (h : InHand) → hand_at self.old.hands (Actor (Client c)) ≡ Some h → IsUpdate h.driver }
        requires client { c < client_numbers }
        requires shown { IsShown self.old }
        requires roomy { HasNumbersLeft self.old }
        requires spare { 1 ≤ log.old.spare }
        ensures ok { OnOk result (Adds log.old log.new (IsStep (Actor (Client c)) self.old self.new)) }
        ensures err { OnErr result ((self.new ≡ self.old) × (log.new.labels ≡ log.old.labels)) }
    {
        let slot = self.hands.at_client(c);
        let Some(hand) = slot else { unreachable!() };
        if creates(&hand.op) {
            return self.driven_step(alloc, c, log);
        }
        let call = hand.call;
        let op = hand.word();
        self.nodes.at(r, ckpt).commit(asked);
        if hand.committed(&self.cluster, ckpt, r) {
            log.push(goes_on(call, op, Verb::Commit, ckpt, r));
        } else {
            clear(slot);
            log.push(done(call, op, Verb::Commit, ckpt, r));
        }
        Ok(())
    }
}

// A node has refused to stage an update, which ends by that unless the owner of the slot there is gone.
#[inline(never)]
fn refuse_stage(
    slot: &mut Option<InHand>,
    cluster: &Record,
    r: NodeId,
    request: &Request,
    refused: StageRefused,
    log: &mut RunLog,
)
    requires held { slot.old ≢ None }
    requires next { (h : InHand) → slot.old ≡ Some h → AsksNode cluster.now h.driver r request.now }
    requires node { r < nodes_max }
    requires spare { 1 ≤ log.old.spare }
    ensures slot { (h : InHand) → slot.old ≡ Some h → slot.new ≡ left (end_by cluster.now (served_done cluster.now request.now r (reply_refused refused)) (reply_refused refused) h) (hand_taken (served_done cluster.now request.now r (reply_refused refused)) h) }
    ensures label { (h : InHand) → slot.old ≡ Some h → log.new.labels ≡ log.old.labels ++ labels.Stepped h.call (word_of_op h.op) (verb_of request.now) (Some (ckpt_of request.now)) (Some r) (word_of (reply_refused refused)) (end_by cluster.now (served_done cluster.now request.now r (reply_refused refused)) (reply_refused refused) h) beside.Nothing ∷ [] }
{
    let Some(hand) = slot else { unreachable!() };
    let call = hand.call;
    let op = hand.word();
    let reply = reply_refused(refused);
    let end = hand.take(cluster, &reply);
    let_go(slot, &end);
    log.push(served(call, op, request, r, &reply, end, Details::Nothing));
}
