//! The driver of Copy, which brings a node that has come back a replica of each checkpoint that it lacks.
ghost use Rattle.std.specs.Prelude.{◌≡◌, ◌<◌, IfOk, IfSome, Some, slice_index};
ghost use Rattle.ckpt_types.specs.Limits.{nodes_max};
ghost use Rattle.node_msgs.specs.declared.next.Next.TheVariants.{Serve};
ghost use Rattle.cluster_record.specs.DueCopy.{IsNode, complete_in, complete_taken, copy_begun, copy_end, copy_next, copy_outcome, copy_taken, copy_told, done_by, lacks_replica, next_to_copy, onward, phase_next, pull_at, pull_taken, pulled_phase, reserve_taken, staging_next, staging_phase, with_phase};
ghost use Rattle.cluster_record.specs.declared.copying.CopyPhase.TheVariants.{Reserved, Staging};
ghost use Rattle.cluster_record.specs.Ends.{IsAtANode, served_done};

use ckpt_types::{ActorName, AisError, Answer, CallId, Cause, CkptId, NodeId, Outcome};
use cluster_record::{
    CopyPhase, Copying, Entry, Record, Staging, first_complete, is_all, is_collocated, refused_end,
};
use node_msgs::{Next, RecordStep, Reply, Request, StepReply};
use std::alloc::{AllocError, Global};
use std::marker::Model;

/// The driver of the copying to a node that has come back.
#[derive(Drop)]
pub struct CopyCall<H: Staging> {
    call: CallId,
    /// The node that has come back.
    node: NodeId,
    /// The checkpoint that it is at, and how far it is there.
    copying: Option<Copying>,
    /// Its update there.
    staging: H,
}

impl<H: Staging> Model for CopyCall<H> {
    ghost use Rattle.ckpt_types.specs.Limits.{nodes_max};
    ghost use Rattle.cluster_record.specs.DueCopy.{CopyState};
    ghost use Rattle.std.specs.Prelude.{◌<◌};

    ghost Value = { CopyState };

    ghost view = { λ s. record { call = s.call; node = s.node; copying = s.copying; staging = H.staging s.staging } };

    ghost invariant = { λ s. s.node < nodes_max };
}

impl<H: Staging> CopyCall<H> {
    /// The copying of a node that begins this call: it is at no checkpoint.
    pub fn begin(call: CallId, staging: H) -> CopyCall<H>
        requires { IsNode call.actor }
        ensures { result ≡ copy_begun call (H.staging staging) }
    {
        let ActorName::Node(node) = call.actor else {
            unreachable!()
        };
        CopyCall {
            call,
            node,
            copying: None,
            staging,
        }
    }

    /// An equal one.
    pub fn copy(&self, alloc: Global) -> Result<CopyCall<H>, AllocError>
        ensures { IfOk result (λ copy. copy ≡ self.now) }
    {
        let staging = self.staging.copy(alloc)?;
        Ok(CopyCall {
            call: self.call,
            node: self.node,
            copying: self.copying,
            staging,
        })
    }

    /// What it does next.
    pub fn next(&self, seen: &Record) -> Next
        ensures next { result ≡ copy_next seen.now self.now }
        ensures at { IsAtANode result }
    {
        let Some(copying) = self.copying else {
            return self.onward(seen);
        };
        match seen.entry(copying.ckpt) {
            None => self.onward(seen),
            Some(entry) => self.phase_next(seen, entry, copying.ckpt, copying.phase),
        }
    }

    // The next checkpoint that its node lacks; with none left it is done.
    fn onward(&self, seen: &Record) -> Next
        ensures next { result ≡ onward seen.now self.now }
        ensures at { IsAtANode result }
    {
        match next_to_copy(seen, self.node) {
            None => Next::End(Outcome::Done(Answer::Nothing)),
            Some(ckpt) => Next::Serve(self.node, Request::Reserve(ckpt)),
        }
    }

    // By how far it is at a checkpoint that is there.
    fn phase_next(&self, seen: &Record, entry: &Entry, ckpt: CkptId, phase: CopyPhase) -> Next
        requires { IfSome entry.now.active (λ r. r < nodes_max) }
        ensures next { result ≡ phase_next seen.now self.now ckpt entry.now phase }
        ensures at { IsAtANode result }
    {
        match phase {
            CopyPhase::Reserved => self.reserved_next(seen, entry, ckpt),
            CopyPhase::Staging => self.staged_next(seen, entry, ckpt),
            CopyPhase::PulledActive(generation) => {
                self.complete_in(ckpt, generation, entry.generation)
            }
            CopyPhase::PulledStaged => {
                let moment = Some(self.staging.moment());
                Next::Event(RecordStep::Complete(ckpt, self.node, moment))
            }
            CopyPhase::Committing => self.staging_next(seen),
        }
    }

    // Where updates go to all replicas its own is staged; else the active is pulled.
    fn reserved_next(&self, seen: &Record, entry: &Entry, ckpt: CkptId) -> Next
        requires { IfSome entry.now.active (λ r. r < nodes_max) }
        ensures next { result ≡ phase_next seen.now self.now ckpt entry.now Reserved }
        ensures at { IsAtANode result }
    {
        if is_all(&entry.attributes) {
            self.staging_next(seen)
        } else {
            self.pull_at(ckpt, entry.active)
        }
    }

    // Once its update is staged on all complete nodes, the lowest of them is pulled.
    fn staged_next(&self, seen: &Record, entry: &Entry, ckpt: CkptId) -> Next
        ensures next { result ≡ phase_next seen.now self.now ckpt entry.now Staging }
        ensures at { IsAtANode result }
    {
        if self.staging.all_staged(seen) {
            self.pull_at(ckpt, first_complete(&entry.complete))
        } else {
            self.staging_next(seen)
        }
    }

    // What its update does next, and behind that the next checkpoint.
    fn staging_next(&self, seen: &Record) -> Next
        ensures next { result ≡ staging_next seen.now self.now }
        ensures at { IsAtANode result }
    {
        let next = self.staging.next(seen);
        if let Next::End(Outcome::Done(_)) = next {
            return self.onward(seen);
        }
        next
    }

    fn pull_at(&self, ckpt: CkptId, node: Option<NodeId>) -> Next
        requires { IfSome node (λ r. r < nodes_max) }
        ensures next { result ≡ pull_at self.now.call ckpt node }
        ensures at { IsAtANode result }
    {
        match node {
            None => Next::End(Outcome::Refused(AisError::NotExist, Cause::Plain)),
            Some(r) => Next::Serve(r, Request::Pull(self.call, ckpt)),
        }
    }

    // What the active had is completed in the generation in which it was pulled.
    fn complete_in(&self, ckpt: CkptId, pulled: u64, present: u64) -> Next
        ensures next { result ≡ complete_in self.now ckpt pulled present }
        ensures at { IsAtANode result }
    {
        if pulled != present {
            let generations = Cause::Generations(pulled, present);
            return Next::End(Outcome::Refused(AisError::TryAgain, generations));
        }
        Next::Event(RecordStep::Complete(ckpt, self.node, None))
    }

    /// It takes a reply: of a node to what is next; or of the record to its completion, with the record behind that.
    /// How it ends it, if it does; what the record alone decides ends it so.
    pub fn take(&mut self, seen: &Record, reply: &Reply) -> Option<Outcome>
        ensures new { self.new ≡ copy_told seen.now reply.now self.old }
        ensures outcome { result ≡ copy_outcome seen.now reply.now self.old }
    {
        match self.next(seen) {
            Next::Serve(r, request) => {
                self.served(seen, r, &request, reply);
                self.end(seen, reply)
            }
            Next::Event(_) => {
                self.completed(seen, reply.word());
                self.end(seen, reply)
            }
            Next::End(outcome) => Some(outcome),
        }
    }

    // It takes what a node has answered to what is next: a reservation, a pull, or a step of its update.
    fn served(&mut self, seen: &Record, r: NodeId, request: &Request, reply: &Reply)
        requires { copy_next seen.now self.old ≡ Serve r request.now }
        ensures { self.new ≡ copy_taken (served_done seen.now request.now r reply.now) self.old }
    {
        match request {
            Request::Reserve(ckpt) => self.reserved(*ckpt, reply.word()),
            Request::Pull(_, ckpt) => self.pulled(seen.generation_of(*ckpt), reply.word()),
            _ => {
                self.copying = being_staged(self.copying);
                let _ = self.staging.take(seen, reply);
            }
        }
    }

    // Its node has reserved: it is at that checkpoint, where its update has staged nowhere.
    fn reserved(&mut self, ckpt: CkptId, word: StepReply)
        ensures { self.new ≡ reserve_taken self.old (Some ckpt) word }
    {
        let StepReply::Ok = word else {
            return;
        };
        self.copying = Some(Copying {
            ckpt,
            phase: CopyPhase::Reserved,
        });
        self.staging.start(self.call, ckpt);
    }

    // A replica is pulled, in this generation of the checkpoint.
    fn pulled(&mut self, generation: u64, word: StepReply)
        ensures { self.new ≡ pull_taken generation self.old word }
    {
        let StepReply::Ok = word else {
            return;
        };
        let Some(Copying { ckpt, phase }) = self.copying else {
            return;
        };
        let phase = pulled_phase(generation, phase);
        self.copying = Some(Copying { ckpt, phase });
    }

    // Its node is complete: where its update is staged on all, it has its slot there too, and is committed; else no more
    // is to do at this checkpoint.
    fn completed(&mut self, seen: &Record, word: StepReply)
        ensures { self.new ≡ complete_taken (slice_index seen.now.up self.old.node) self.old word }
    {
        let StepReply::Ok = word else {
            return;
        };
        let Some(Copying { ckpt, phase }) = self.copying else {
            return;
        };
        let CopyPhase::PulledStaged = phase else {
            self.copying = None;
            return;
        };
        self.copying = Some(Copying {
            ckpt,
            phase: CopyPhase::Committing,
        });
        let incarnation = seen.incarnations()[self.node as usize];
        self.staging.joined(self.node, incarnation);
    }

    // How the reply ends it, being as it is behind that: with OK where nothing is left, for want of memory, or refused.
    fn end(&self, seen: &Record, reply: &Reply) -> Option<Outcome>
        ensures { result ≡ copy_end seen.now reply.now self.now }
    {
        match reply {
            Reply::Done(_) => done_by(self.next(seen)),
            Reply::NoMemory => Some(Outcome::NoMemory),
            _ => refused_end(seen, reply),
        }
    }
}

// The first checkpoint, in order of identity, of which a node lacks a replica.
fn next_to_copy(seen: &Record, node: NodeId) -> Option<CkptId>
    requires { node < nodes_max }
    ensures { result ≡ next_to_copy node seen.now.entries }
{
    for place in 0..seen.entries_len() {
        let Some(entry) = seen.entry_at(place as u32) else {
            unreachable!()
        };
        if lacks_replica(entry, node) {
            return Some(entry.identity);
        }
    }
    None
}

// Whether a node lacks a replica of a checkpoint: it is made, is not collocated, and is not complete there.
fn lacks_replica(entry: &Entry, node: NodeId) -> bool
    requires { node < nodes_max }
    ensures { result ≡ lacks_replica node entry.now }
{
    if entry.making.is_some() || is_collocated(&entry.attributes) {
        return false;
    }
    entry.complete[node as usize] == 0
}

// From the first step of its update on, that is being staged.
fn being_staged(copying: Option<Copying>) -> Option<Copying>
    ensures { result ≡ with_phase staging_phase copying }
{
    let Copying { ckpt, phase } = copying?;
    let CopyPhase::Reserved = phase else {
        return copying;
    };
    Some(Copying {
        ckpt,
        phase: CopyPhase::Staging,
    })
}

// A pull is of the active, in this generation, or of what has its update staged.
fn pulled_phase(generation: u64, phase: CopyPhase) -> CopyPhase
    ensures { result ≡ pulled_phase generation phase }
{
    match phase {
        CopyPhase::Reserved => CopyPhase::PulledActive(generation),
        CopyPhase::Staging => CopyPhase::PulledStaged,
        _ => phase,
    }
}

// It ends with OK where that is next.
fn done_by(next: Next) -> Option<Outcome>
    ensures { result ≡ done_by next }
{
    match next {
        Next::End(Outcome::Done(answer)) => Some(Outcome::Done(answer)),
        _ => None,
    }
}
