//! The driver of an update on all replicas, and of the staging of one.
ghost use Rattle.std.specs.Prelude.{◌≡◌, ℕ, ℤ, ◌<◌, IfOk, IfSome, Some, None, is_some, slice_set, slice_index};
ghost use Rattle.ckpt_types.specs.declared.identities.CallId.{CallId};
ghost use Rattle.ckpt_types.specs.Limits.{nodes_max};
ghost use Rattle.node_msgs.specs.declared.steps.StepReply.TheVariants as words;
ghost use Rattle.node_msgs.specs.declared.steps.Verb.TheVariants as verbs;
ghost use Rattle.node_msgs.specs.Requests.{ckpt_of};
ghost use Rattle.node_msgs.specs.Steps.{verb_of};
ghost use Rattle.ckpt_types.specs.declared.ais_error.AisError.TheVariants.{NotExist};
ghost use Rattle.ckpt_types.specs.declared.answers.Answer.{Answer};
ghost use Rattle.ckpt_types.specs.declared.answers.Answer.TheVariants as answers;
ghost use Rattle.ckpt_types.specs.declared.answers.Cause.TheVariants.{Plain};
ghost use Rattle.ckpt_types.specs.declared.answers.Outcome.TheVariants.{Refused};
ghost use Rattle.node_msgs.specs.declared.next.Next.TheVariants.{Serve, End};
ghost use Rattle.node_msgs.specs.declared.replies.Reply.TheVariants as replies;
ghost use Rattle.node_msgs.specs.declared.requests.Request.TheVariants as requests;
ghost use Rattle.cluster_record.specs.DueUpdate.{update_begun, by_phase, commit_at, commit_first, claim_at, stage_at, committing, update_next, update_taken, done_end_by, kept_moment, free_phase};
ghost use Rattle.cluster_record.specs.Ends.{IsAtANode, answer_unless, ended_unless, served_done, update_end, update_outcome, update_told};
ghost use Rattle.cluster_record.specs.declared.calls.UpdatePhase.TheVariants.{Staging, Withdrawing};
ghost use Rattle.cluster_record.specs.RecordState.{RecordState, entry_of, complete_of};
ghost use Rattle.cluster_record.specs.StepDone.{counting, done_of, first_lacking, last_having};
ghost use Rattle.drive_update.specs.UpdateStates.{IsOfUpdate, settles};

use ckpt_types::{
    AisError, Answer, CallId, Cause, CkptId, Incarnation, Moment, NODES_MAX, NodeId, Outcome,
};
use cluster_record::{
    Record, Staging, UpdatePhase, count_told, first_lacking, has_any, last_having, refused_end,
};
use node_msgs::{Next, Reply, Request};
use std::alloc::{AllocError, Global};
use std::marker::Model;

/// The driver of an update on a checkpoint whose replicas all have it before it is answered.
#[derive(Drop)]
pub struct UpdateCall {
    call: CallId,
    ckpt: CkptId,
    // By node, the incarnation with which the call owns its slot, or 0.
    owned: [u32; NODES_MAX],
    // It owns none above this node.
    top: NodeId,
    // The moment of its slots.
    moment: Moment,
    phase: UpdatePhase,
    // How many updates the replicas had of which it has claimed the slots.
    count: u64,
    // Whose slot it has met, which is not live.
    owner: CallId,
}

impl Model for UpdateCall {
    ghost use Rattle.cluster_record.specs.DueUpdate.{UpdateState};

    ghost Value = { UpdateState };

    ghost use Rattle.drive_update.specs.UpdateStates.{update_state, HasNoneAboveTop};

    ghost view = { update_state };

    ghost invariant = { HasNoneAboveTop };
}

impl Staging for UpdateCall {
    ghost staging = { λ update. update };

    fn start(&mut self, call: CallId, ckpt: CkptId) {
        *self = UpdateCall::begin(call, ckpt);
    }

    fn next(&self, seen: &Record) -> Next {
        UpdateCall::next(self, seen)
    }

    fn take(&mut self, seen: &Record, reply: &Reply) -> Option<Outcome> {
        UpdateCall::take(self, seen, reply)
    }

    fn all_staged(&self, seen: &Record) -> bool {
        let UpdatePhase::Staging = self.phase else {
            return false;
        };
        let complete = seen.complete_on(self.ckpt);
        if first_lacking(&complete, &self.owned).is_some() {
            return false;
        }
        has_any(&complete, &self.owned, self.top)
    }

    fn joined(&mut self, node: NodeId, incarnation: Incarnation) {
        self.own(node, incarnation);
    }

    fn moment(&self) -> Moment {
        self.moment
    }

    fn copy(&self, alloc: Global) -> Result<UpdateCall, AllocError> {
        UpdateCall::copy(self, alloc)
    }
}

impl UpdateCall {
    /// The update of a call that begins: it has staged nowhere.
    pub fn begin(call: CallId, ckpt: CkptId) -> UpdateCall
        ensures { result ≡ update_begun call ckpt }
    {
        UpdateCall {
            call,
            ckpt,
            owned: [0; NODES_MAX],
            top: 0,
            moment: 0,
            phase: UpdatePhase::Staging,
            count: 0,
            owner: call,
        }
    }

    /// An equal call. It takes no memory.
    pub fn copy(&self, _alloc: Global) -> Result<UpdateCall, AllocError>
        ensures { IfOk result (λ copy. copy ≡ self.now) }
    {
        Ok(UpdateCall {
            call: self.call,
            ckpt: self.ckpt,
            owned: self.owned,
            top: self.top,
            moment: self.moment,
            phase: self.phase,
            count: self.count,
            owner: self.owner,
        })
    }

    /// What it does next.
    #[inline(always)]
    pub fn next(&self, cluster: &Record) -> Next
        ensures next { result ≡ update_next cluster.now self.now }
        ensures is { IsOfUpdate result }
        ensures at { IsAtANode result }
    {
        let Some(entry) = cluster.entry(self.ckpt) else {
            return not_exist();
        };
        if entry.active.is_none() {
            return not_exist();
        }
        match self.phase {
            UpdatePhase::Staging => self.stage_next(cluster.now(), &entry.complete),
            UpdatePhase::Committing => self.commit_next(&entry.complete),
            _ => self.settle_next(cluster.now(), &entry.complete),
        }
    }

    /// Whether it has met the slot of a call that is gone, and has not come to stage its own update behind that.
    #[inline(always)]
    pub fn settles(&self) -> bool
        ensures { result ≡ settles self.now.phase }
    {
        match self.phase {
            UpdatePhase::Staging | UpdatePhase::Committing => false,
            _ => true,
        }
    }

    // Where it has met the slot of a call that is gone: it claims, and then withdraws what it has claimed, or commits it;
    // with none of it, or none any more, it stages its own update.
    #[inline(never)]
    fn settle_next(&self, now: Moment, complete: &[u32; NODES_MAX]) -> Next
        ensures next { result ≡ by_phase self.now now (first_lacking 0 complete.now self.now.owned) (last_having 0 complete.now self.now.owned) self.now.phase }
        ensures is { IsOfUpdate result }
        ensures at { IsAtANode result }
    {
        match (self.phase, last_having(complete, &self.owned, self.top)) {
            (UpdatePhase::Claiming, _) | (UpdatePhase::Claimed, Some(_)) => {
                self.claim_next(complete)
            }
            (UpdatePhase::Withdrawing, Some(r)) => {
                Next::Serve(r, Request::Withdraw(self.call, self.ckpt))
            }
            (UpdatePhase::Committing, _) | (UpdatePhase::Resolving, Some(_)) => {
                self.commit_next(complete)
            }
            _ => self.stage_next(now, complete),
        }
    }

    // While it stages: the lowest node that it lacks, and then the first that it commits.
    #[inline(always)]
    fn stage_next(&self, now: Moment, complete: &[u32; NODES_MAX]) -> Next
        ensures next { result ≡ stage_at self.now now (first_lacking 0 complete.now self.now.owned) (last_having 0 complete.now self.now.owned) }
        ensures is { IsOfUpdate result }
        ensures at { IsAtANode result }
    {
        let Some(r) = first_lacking(complete, &self.owned) else {
            return self.commit_first(complete);
        };
        let moment = if has_any(complete, &self.owned, self.top) {
            self.moment
        } else {
            now
        };
        Next::Serve(r, Request::Stage(self.call, self.ckpt, moment))
    }

    // Its first commit: at the highest node that it has.
    #[inline(always)]
    fn commit_first(&self, complete: &[u32; NODES_MAX]) -> Next
        ensures next { result ≡ commit_first self.now (last_having 0 complete.now self.now.owned) }
        ensures is { IsOfUpdate result }
        ensures at { IsAtANode result }
    {
        let Some(r) = last_having(complete, &self.owned, self.top) else {
            return not_exist();
        };
        Next::Serve(r, Request::Commit(self.call, self.ckpt))
    }

    // While it commits: the highest node that it has.
    #[inline(always)]
    fn commit_next(&self, complete: &[u32; NODES_MAX]) -> Next
        ensures next { result ≡ commit_at self.now (last_having 0 complete.now self.now.owned) }
        ensures is { IsOfUpdate result }
        ensures at { IsAtANode result }
    {
        match last_having(complete, &self.owned, self.top) {
            None => Next::End(Outcome::Done(Answer::Nothing)),
            Some(r) => Next::Serve(r, Request::Commit(self.call, self.ckpt)),
        }
    }

    // While it claims: the lowest node that it lacks, and then the first that it commits.
    #[inline(always)]
    fn claim_next(&self, complete: &[u32; NODES_MAX]) -> Next
        ensures next { result ≡ claim_at self.now (first_lacking 0 complete.now self.now.owned) (last_having 0 complete.now self.now.owned) }
        ensures is { IsOfUpdate result }
        ensures at { IsAtANode result }
    {
        let Some(r) = self.lacked(complete) else {
            return self.commit_first(complete);
        };
        Next::Serve(r, Request::Claim(self.call, self.ckpt, self.owner))
    }

    // The lowest node that it lacks.
    #[inline(never)]
    fn lacked(&self, complete: &[u32; NODES_MAX]) -> Option<NodeId>
        ensures value { result ≡ first_lacking 0 complete.now self.now.owned }
        ensures within { IfSome result (λ r. r < nodes_max) }
    {
        first_lacking(complete, &self.owned)
    }

    /// A node has staged it.
    #[inline(always)]
    pub fn staged(&mut self, cluster: &Record, ckpt: CkptId, r: NodeId)
        requires { r < nodes_max }
        ensures new { self.new ≡ update_taken (done_of cluster.now verbs.Stage (Some ckpt) (Some r) words.Ok) self.old }
        ensures told { (call : CallId) (moment : ℤ) → update_next cluster.now self.old ≡ Serve r (requests.Stage call ckpt moment) → self.new ≡ update_told cluster.now (replies.Done answers.Nothing) self.old }
        ensures goes_on { (call : CallId) (moment : ℤ) → update_next cluster.now self.old ≡ Serve r (requests.Stage call ckpt moment) → update_outcome cluster.now (replies.Done answers.Nothing) self.old ≡ None }
    {
        match cluster.entry(ckpt) {
            None => self.staged_at(cluster.now(), &[0; NODES_MAX], r),
            Some(entry) => self.staged_at(cluster.now(), &entry.complete, r),
        }
    }

    // It owns its slot at the node, with the incarnation of the node among these. All its slots are of one moment.
    #[inline(always)]
    fn staged_at(&mut self, now: Moment, complete: &[u32; NODES_MAX], r: NodeId)
        requires { r < nodes_max }
        ensures { self.new ≡ record self.old { owned = slice_set self.old.owned r (slice_index complete.now r); moment = kept_moment (last_having 0 complete.now self.old.owned) now self.old.moment; phase = Staging } }
    {
        if !has_any(complete, &self.owned, self.top) {
            self.moment = now;
        }
        self.own(r, complete[r as usize]);
        self.phase = UpdatePhase::Staging;
    }

    // It owns its slot at the node from then on, with this incarnation of the node.
    #[inline(always)]
    fn own(&mut self, r: NodeId, incarnation: Incarnation)
        requires { r < nodes_max }
        ensures { self.new ≡ record self.old { owned = slice_set self.old.owned r incarnation } }
    {
        self.owned[r as usize] = incarnation;
        if self.top < r {
            self.top = r;
        }
    }

    // It owns none at the node from then on.
    #[inline(always)]
    fn let_go(&mut self, r: NodeId)
        requires { r < nodes_max }
        ensures { self.new ≡ record self.old { owned = slice_set self.old.owned r 0 } }
    {
        self.owned[r as usize] = 0;
        if self.top == r && r > 0 {
            self.top = r - 1;
        }
    }

    /// A node has committed it, or what it has claimed. Whether it goes on: with a slot left, or behind what it has
    /// claimed.
    #[inline(always)]
    pub fn committed(&mut self, cluster: &Record, ckpt: CkptId, r: NodeId) -> bool
        requires { r < nodes_max }
        ensures new { self.new ≡ update_taken (done_of cluster.now verbs.Commit (Some ckpt) (Some r) words.Ok) self.old }
        ensures end { (answer : Answer) → done_end_by (done_of cluster.now verbs.Commit (Some ckpt) (Some r) words.Ok) answer self.new verbs.Commit ≡ answer_unless result answer }
        ensures told { (call : CallId) → update_next cluster.now self.old ≡ Serve r (requests.Commit call ckpt) → self.new ≡ update_told cluster.now (replies.Done answers.Nothing) self.old }
        ensures outcome { (call : CallId) → update_next cluster.now self.old ≡ Serve r (requests.Commit call ckpt) → update_outcome cluster.now (replies.Done answers.Nothing) self.old ≡ ended_unless result }
    {
        self.let_go(r);
        self.phase = committing(self.phase);
        let UpdatePhase::Committing = self.phase else {
            return true;
        };
        self.has_slot(cluster, ckpt)
    }

    // Whether it has a slot at a complete node.
    #[inline(always)]
    fn has_slot(&self, cluster: &Record, ckpt: CkptId) -> bool
        ensures { result ≡ is_some (last_having 0 (complete_of (entry_of ckpt cluster.now.entries)) self.now.owned) }
    {
        match cluster.entry(ckpt) {
            None => false,
            Some(entry) => has_any(&entry.complete, &self.owned, self.top),
        }
    }

    // A node has given it the slot of a call that is gone, and told how many updates the replica has.
    fn claimed(&mut self, cluster: &Record, ckpt: CkptId, r: NodeId, count: u64)
        requires { r < nodes_max }
        ensures { self.new ≡ update_taken (counting count (done_of cluster.now verbs.Claim (Some ckpt) (Some r) words.Ok)) self.old }
    {
        self.own(r, cluster.complete_on(ckpt)[r as usize]);
        self.count = count;
        self.phase = UpdatePhase::Claimed;
    }

    // The slot of another call stands where it was to stage or to claim. It is to claim that one's from then on.
    fn met(&mut self, request: &Request, by: CallId)
        ensures { (R : RecordState) (r : ℕ) → self.new ≡ update_taken (done_of R (verb_of request.now) (Some (ckpt_of request.now)) (Some r) (words.Held by)) self.old }
    {
        match request {
            Request::Stage(_, _, _) => {
                self.phase = UpdatePhase::Claiming;
                self.owner = by;
            }
            Request::Claim(_, _, _) => self.owner = by,
            _ => {}
        }
    }

    // No slot stands where it was to claim, and the replica there has so many updates.
    fn found_free(&mut self, request: &Request, count: u64)
        ensures { (R : RecordState) (r : ℕ) → self.new ≡ update_taken (done_of R (verb_of request.now) (Some (ckpt_of request.now)) (Some r) (words.Free count)) self.old }
    {
        let Request::Claim(_, _, _) = request else {
            return
        };
        self.phase = free_phase(self.phase, count == self.count);
    }

    // A node has withdrawn what it has claimed there.
    fn withdrawn(&mut self, r: NodeId)
        requires { r < nodes_max }
        ensures { self.new ≡ record self.old { owned = slice_set self.old.owned r 0; phase = Withdrawing } }
    {
        self.let_go(r);
        self.phase = UpdatePhase::Withdrawing;
    }

    /// It takes a reply to what is next. How that ends it, if it does; what the record alone decides ends it so.
    pub fn take(&mut self, cluster: &Record, reply: &Reply) -> Option<Outcome>
        ensures new { self.new ≡ update_told cluster.now reply.now self.old }
        ensures outcome { result ≡ update_outcome cluster.now reply.now self.old }
    {
        match self.next(cluster) {
            Next::Serve(r, request) => self.take_served(cluster, r, &request, reply),
            Next::Event(_) => None,
            Next::End(outcome) => Some(outcome),
        }
    }

    // It takes what a node has answered to a request.
    fn take_served(
        &mut self,
        cluster: &Record,
        r: NodeId,
        request: &Request,
        reply: &Reply,
    ) -> Option<Outcome>
        requires { r < nodes_max }
        ensures new { self.new ≡ update_taken (served_done cluster.now request.now r reply.now) self.old }
        ensures end { result ≡ update_end (served_done cluster.now request.now r reply.now) reply.now self.new }
    {
        match reply {
            Reply::Done(answer) => self.done(cluster, r, request, count_told(reply), *answer),
            // Its word is that of a reply that was done, and it ends nothing.
            Reply::Claimed(count) => {
                self.done(cluster, r, request, *count, Answer::Nothing);
                None
            }
            Reply::Held(by) => {
                self.met(request, *by);
                refused_end(cluster, reply)
            }
            Reply::Free(count) => {
                self.found_free(request, *count);
                None
            }
            _ => refused_end(cluster, reply),
        }
    }

    // It takes what a node has done to a request, with the count that was told, and how that ends it.
    #[inline(always)]
    fn done(
        &mut self,
        cluster: &Record,
        r: NodeId,
        request: &Request,
        count: u64,
        answer: Answer,
    ) -> Option<Outcome>
        requires { r < nodes_max }
        ensures new { self.new ≡ update_taken (counting count (done_of cluster.now (verb_of request.now) (Some (ckpt_of request.now)) (Some r) words.Ok)) self.old }
        ensures end { result ≡ done_end_by (counting count (done_of cluster.now (verb_of request.now) (Some (ckpt_of request.now)) (Some r) words.Ok)) answer self.new (verb_of request.now) }
    {
        match request {
            Request::Stage(_, ckpt, _) => self.staged(cluster, *ckpt, r),
            Request::Claim(_, ckpt, _) => self.claimed(cluster, *ckpt, r, count),
            Request::Withdraw(_, _) => self.withdrawn(r),
            Request::Commit(_, ckpt) => {
                if !self.committed(cluster, *ckpt, r) {
                    return Some(Outcome::Done(answer));
                }
            }
            _ => {}
        }
        None
    }
}

// A commit is of its own update where it has staged that, and else of what it has claimed.
#[inline(always)]
fn committing(phase: UpdatePhase) -> UpdatePhase
    ensures { result ≡ committing phase }
{
    match phase {
        UpdatePhase::Staging | UpdatePhase::Committing => UpdatePhase::Committing,
        _ => UpdatePhase::Resolving,
    }
}

// What becomes of the slots that it has claimed, where it comes to a replica without one: with as many updates as theirs
// had, none has their update, which it withdraws; else that one has it, and it commits. Where it has claimed nothing, it
// stages its own.
fn free_phase(phase: UpdatePhase, same: bool) -> UpdatePhase
    ensures { result ≡ free_phase phase same }
{
    match (phase, same) {
        (UpdatePhase::Claimed, true) => UpdatePhase::Withdrawing,
        (UpdatePhase::Claimed, false) => UpdatePhase::Resolving,
        _ => UpdatePhase::Staging,
    }
}

// It is refused with NOT_EXIST.
fn not_exist() -> Next
    ensures { result ≡ End (Refused NotExist Plain) }
{
    Next::End(Outcome::Refused(AisError::NotExist, Cause::Plain))
}
