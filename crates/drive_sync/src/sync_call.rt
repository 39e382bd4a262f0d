//! The driver of Synchronize, and of ActiveReplicaSet.
ghost use Rattle.std.specs.Prelude.{◌≡◌, ◌<◌, IfOk, IfSome, Some};
ghost use Rattle.ckpt_types.specs.declared.ais_error.AisError.TheVariants.{NotExist};
ghost use Rattle.ckpt_types.specs.declared.answers.Cause.TheVariants.{Plain};
ghost use Rattle.ckpt_types.specs.declared.answers.Outcome.TheVariants.{Refused};
ghost use Rattle.ckpt_types.specs.Limits.{nodes_max};
ghost use Rattle.node_msgs.specs.declared.next.Next.TheVariants.{End};
ghost use Rattle.node_msgs.specs.Requests.{ckpt_of};
ghost use Rattle.node_msgs.specs.Steps.{verb_of};
ghost use Rattle.cluster_record.specs.DueSync.{first_unserved, is_unserved, kind_next, lead_next, sync_begun, sync_ended, sync_next, sync_taken, unless_held, unless_stale};
ghost use Rattle.cluster_record.specs.RecordState.{complete_of, entry_of};
ghost use Rattle.cluster_record.specs.Ends.{IsAtANode, hold_in, served_done, setting_end, sync_end, sync_outcome, sync_told};
ghost use Rattle.cluster_record.specs.StepDone.{counting, done_of};

use ckpt_types::{
    AisError, Answer, CallId, Cause, CkptId, Incarnation, NODES_MAX, NodeId, Outcome,
};
use cluster_record::{Entry, PulledAt, Record, SyncKind, count_told, in_time, is_own, refused_end};
use node_msgs::{Next, RecordStep, Reply, Request, StepReply};
use std::alloc::{AllocError, Global};
use std::marker::Model;

/// The driver of a call that brings what the active has to other replicas.
#[derive(Drop)]
pub struct SyncCall {
    call: CallId,
    ckpt: CkptId,
    kind: SyncKind,
    /// What it has pulled, once it has.
    pulled: Option<PulledAt>,
    /// By node, whether it has that.
    served: [bool; NODES_MAX],
}

impl Model for SyncCall {
    ghost use Rattle.cluster_record.specs.DueSync.{SyncState};

    ghost Value = { SyncState };

    ghost use Rattle.drive_sync.specs.SyncStates.{sync_state};

    ghost view = { sync_state };
}

impl SyncCall {
    /// A call that begins.
    pub fn begin(call: CallId, ckpt: CkptId, kind: SyncKind) -> SyncCall
        ensures { result ≡ sync_begun call ckpt kind }
    {
        SyncCall {
            call,
            ckpt,
            kind,
            pulled: None,
            served: [false; NODES_MAX],
        }
    }

    /// An equal call. It takes no memory.
    pub fn copy(&self, _alloc: Global) -> Result<SyncCall, AllocError>
        ensures { IfOk result (λ copy. copy ≡ self.now) }
    {
        Ok(SyncCall {
            call: self.call,
            ckpt: self.ckpt,
            kind: self.kind,
            pulled: self.pulled,
            served: self.served,
        })
    }

    /// The checkpoint that it is about.
    pub fn ckpt(&self) -> CkptId
        ensures { result ≡ self.now.ckpt }
    {
        self.ckpt
    }

    /// What it does next.
    pub fn next(&self, cluster: &Record) -> Next
        ensures next { result ≡ sync_next cluster.now self.now }
        ensures at { IsAtANode result }
    {
        match cluster.entry(self.ckpt) {
            None => not_exist(),
            Some(entry) => self.kind_next(cluster, entry),
        }
    }

    fn kind_next(&self, cluster: &Record, entry: &Entry) -> Next
        requires active { IfSome entry.now.active (λ r. r < nodes_max) }
        ensures next { result ≡ kind_next cluster.now self.now entry.now self.now.kind }
        ensures at { IsAtANode result }
    {
        match self.kind {
            SyncKind::Synchronize(deadline) => {
                let Some(r) = entry.active else {
                    return not_exist();
                };
                in_time(deadline, cluster.now(), self.unless_stale(entry, r))
            }
            SyncKind::ActiveSet(local) => self.unless_held(local, entry.active, entry.hold),
        }
    }

    // The active is pulled first, and then what it had is installed at one node after the other.
    fn unless_stale(&self, entry: &Entry, r: NodeId) -> Next
        requires { r < nodes_max }
        ensures next { result ≡ unless_stale self.now entry.now r self.now.pulled }
        ensures at { IsAtANode result }
    {
        let Some(pulled) = self.pulled else {
            return Next::Serve(r, Request::Pull(self.call, self.ckpt));
        };
        if pulled.generation != entry.generation {
            let generations = Cause::Generations(pulled.generation, entry.generation);
            return Next::End(Outcome::Refused(AisError::TryAgain, generations));
        }
        match first_unserved(&entry.complete, &self.served) {
            None => Next::End(Outcome::Done(Answer::Pulled(pulled.count))),
            Some(r) => Next::Serve(r, Request::Install(self.call, self.ckpt)),
        }
    }

    // The hold of another call has it try again; behind its own it sets the active.
    fn unless_held(&self, local: NodeId, active: Option<NodeId>, hold: Option<CallId>) -> Next
        ensures next { result ≡ unless_held self.now.call local active hold }
        ensures at { IsAtANode result }
    {
        let Some(holder) = hold else {
            return lead_next(local, active);
        };
        if holder != self.call {
            return Next::End(Outcome::Refused(AisError::TryAgain, Cause::Holder(holder)));
        }
        Next::Event(RecordStep::Activate(local))
    }

    /// It takes a reply: of a node to what is next, and it keeps what it has pulled, and which nodes are served; or of
    /// the record to a step, with the record behind that. How it ends it, if it does; what the record alone decides
    /// ends it so.
    pub fn take(&mut self, cluster: &Record, reply: &Reply) -> Option<Outcome>
        ensures new { self.new ≡ sync_told cluster.now reply.now self.old }
        ensures outcome { result ≡ sync_outcome cluster.now reply.now self.old }
    {
        match self.next(cluster) {
            Next::Serve(r, request) => self.take_served(cluster, r, &request, reply),
            Next::Event(_) => self.setting_end(cluster, reply),
            Next::End(outcome) => Some(outcome),
        }
    }

    // It takes what a node has answered to a request.
    fn take_served(
        &mut self,
        cluster: &Record,
        r: NodeId,
        request: &Request,
        reply: &Reply,
    ) -> Option<Outcome>
        requires { r < nodes_max }
        ensures new { self.new ≡ sync_taken (served_done cluster.now request.now r reply.now) self.old }
        ensures end { result ≡ sync_end (served_done cluster.now request.now r reply.now) reply.now self.new }
    {
        self.keep(cluster, r, request, reply.word(), count_told(reply));
        match reply {
            Reply::Done(_) | Reply::Older(_, _) => self.end(cluster, request),
            Reply::Held(_) | Reply::Refused(_, _) | Reply::NoReplica | Reply::Stale(_, _) => {
                refused_end(cluster, reply)
            }
            Reply::Claimed(_) | Reply::Free(_) | Reply::NoMemory => None,
        }
    }

    // It keeps what a request has done that is told by this word, with this count where it was pulled.
    fn keep(&mut self, cluster: &Record, r: NodeId, request: &Request, word: StepReply, count: u64)
        requires { r < nodes_max }
        ensures { self.new ≡ sync_taken (counting count (done_of cluster.now (verb_of request.now) (Some (ckpt_of request.now)) (Some r) word)) self.old }
    {
        match (request, word) {
            (Request::Pull(_, ckpt), StepReply::Ok) => {
                let generation = cluster.generation_of(*ckpt);
                self.pulled = Some(PulledAt { generation, count });
                self.served[r as usize] = true;
            }
            (Request::Install(_, _), StepReply::Ok | StepReply::Older) => {
                self.served[r as usize] = true;
            }
            _ => {}
        }
    }

    // How it ends behind a node's answer to a request about its checkpoint: with the count that was pulled, where no
    // node is left.
    fn end(&self, cluster: &Record, request: &Request) -> Option<Outcome>
        ensures { result ≡ sync_ended (complete_of (entry_of (ckpt_of request.now) cluster.now.entries)) self.now.served self.now.pulled }
    {
        let pulled = self.pulled?;
        match first_unserved(&cluster.complete_on(request.ckpt()), &self.served) {
            None => Some(Outcome::Done(Answer::Pulled(pulled.count))),
            Some(_) => None,
        }
    }

    // How it ends by what the record answers to its step: where that is done, unless its own hold stands, behind which
    // it goes on.
    fn setting_end(&self, cluster: &Record, reply: &Reply) -> Option<Outcome>
        ensures { result ≡ setting_end cluster.now reply.now self.now }
    {
        let Reply::Done(_) = reply else {
            return refused_end(cluster, reply);
        };
        if is_own(self.call, hold_of(cluster, self.ckpt)) {
            None
        } else {
            Some(Outcome::Done(Answer::Nothing))
        }
    }
}

// The call that holds a checkpoint.
fn hold_of(cluster: &Record, ckpt: CkptId) -> Option<CallId>
    ensures { result ≡ hold_in (entry_of ckpt cluster.now.entries) }
{
    match cluster.entry(ckpt) {
        None => None,
        Some(entry) => entry.hold,
    }
}

fn not_exist() -> Next
    ensures next { result ≡ End (Refused NotExist Plain) }
    ensures at { IsAtANode result }
{
    Next::End(Outcome::Refused(AisError::NotExist, Cause::Plain))
}

// The lowest of these complete nodes that is not served.
fn first_unserved(complete: &[Incarnation; NODES_MAX], served: &[bool; NODES_MAX]) -> Option<NodeId>
    ensures value { result ≡ first_unserved 0 complete.now served.now }
    ensures within { IfSome result (λ r. r < nodes_max) }
{
    for r in 0..NODES_MAX as u8 {
        if is_unserved(complete[r as usize], served[r as usize]) {
            return Some(r);
        }
    }
    None
}

fn is_unserved(incarnation: Incarnation, served: bool) -> bool
    ensures { result ≡ is_unserved incarnation served }
{
    incarnation != 0 && !served
}

// A node that is the active's already, or where there is none, leads at once; else what the active has is held first.
fn lead_next(local: NodeId, active: Option<NodeId>) -> Next
    ensures next { result ≡ lead_next local active }
    ensures at { IsAtANode result }
{
    match active {
        None => Next::Event(RecordStep::Activate(local)),
        Some(r) => {
            if r == local {
                Next::Event(RecordStep::Activate(local))
            } else {
                Next::Event(RecordStep::Hold(r))
            }
        }
    }
}
