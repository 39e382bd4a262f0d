//! The driver of the calls to the active replica alone.
ghost use Rattle.std.specs.Prelude.{◌≡◌, IfOk, Some, None};
ghost use Rattle.node_msgs.specs.Requests.{ckpt_of};
ghost use Rattle.node_msgs.specs.Steps.{verb_of};
ghost use Rattle.cluster_record.specs.DueActive.{active_begun, on_active, active_next, active_request, starts_iteration, is_update, unless_on_hold, unless_changed, weak_request, elements_of_kind, element_taken, active_taken, active_end};
ghost use Rattle.cluster_record.specs.Ends.{active_outcome, active_told};
ghost use Rattle.cluster_record.specs.StepDone.{done_of};

use ckpt_types::{AisError, Answer, CallId, Cause, CkptId, ITERATIONS_MAX, NodeId, Outcome};
use cluster_record::{ActiveKind, MarksMade, Record, refused_end};
use node_msgs::{Next, Reply, Request, StepReply};
use std::alloc::{AllocError, Global};
use std::marker::Model;

/// The driver of a call that goes to the active replica alone.
#[derive(Drop)]
pub struct ActiveCall {
    call: CallId,
    ckpt: CkptId,
    kind: ActiveKind,
    // The marks that it has made, where it is a weak write that has.
    marks: Option<MarksMade>,
}

impl Model for ActiveCall {
    ghost use Rattle.cluster_record.specs.DueActive.{ActiveState};

    ghost Value = { ActiveState };

    ghost use Rattle.drive_active.specs.ActiveStates.{active_state};

    ghost view = { active_state };
}

impl ActiveCall {
    /// A call that begins and asks so much of the active.
    pub fn begin(call: CallId, ckpt: CkptId, kind: ActiveKind) -> ActiveCall
        ensures { result ≡ active_begun call ckpt kind }
    {
        ActiveCall {
            call,
            ckpt,
            kind,
            marks: None,
        }
    }

    /// An equal call. It takes no memory.
    pub fn copy(&self, _alloc: Global) -> Result<ActiveCall, AllocError>
        ensures { IfOk result (λ copy. copy ≡ self.now) }
    {
        Ok(ActiveCall {
            call: self.call,
            ckpt: self.ckpt,
            kind: self.kind,
            marks: self.marks,
        })
    }

    /// What it does next; `room` tells whether its client has a free place for an iteration.
    #[inline(always)]
    pub fn next(&self, cluster: &Record, room: bool) -> Next
        ensures { result ≡ active_next cluster.now room self.now }
    {
        match cluster.entry(self.ckpt) {
            None => Next::End(Outcome::Refused(AisError::NotExist, Cause::Plain)),
            Some(entry) => self.active_next(entry.generation, entry.hold, entry.active, room),
        }
    }

    fn active_next(
        &self,
        generation: u64,
        hold: Option<CallId>,
        active: Option<NodeId>,
        room: bool,
    ) -> Next
        ensures { result ≡ on_active room self.now generation hold active }
    {
        let Some(r) = active else {
            return Next::End(Outcome::Refused(AisError::NotExist, Cause::Plain));
        };
        if self.starts_iteration() && !room {
            return Next::End(Outcome::Refused(
                AisError::NoResources,
                Cause::Count(ITERATIONS_MAX as u32),
            ));
        }
        let next = unless_changed(&self.marks, generation, Next::Serve(r, self.request()));
        self.unless_on_hold(hold, next)
    }

    // A hold that stands has an update try again.
    fn unless_on_hold(&self, hold: Option<CallId>, next: Next) -> Next
        ensures { result ≡ unless_on_hold self.now.kind hold next }
    {
        match hold {
            Some(holder) if self.is_update() => {
                Next::End(Outcome::Refused(AisError::TryAgain, Cause::Holder(holder)))
            }
            _ => next,
        }
    }

    fn is_update(&self) -> bool
        ensures { result ≡ is_update self.now.kind }
    {
        match self.kind {
            ActiveKind::Apply | ActiveKind::Weak(_) => true,
            _ => false,
        }
    }

    fn starts_iteration(&self) -> bool
        ensures { result ≡ starts_iteration self.now.kind }
    {
        match self.kind {
            ActiveKind::Iterate(_) => true,
            _ => false,
        }
    }

    fn request(&self) -> Request
        ensures { result ≡ active_request self.now }
    {
        match self.kind {
            ActiveKind::Apply => Request::Apply(self.call, self.ckpt),
            ActiveKind::Weak(_) => self.weak_request(),
            ActiveKind::Read => Request::Read(self.ckpt),
            ActiveKind::Status => Request::Status(self.ckpt),
            ActiveKind::Iterate(choice) => Request::Iterate(self.call, self.ckpt, choice),
            ActiveKind::Next => Request::Next(self.call, self.ckpt),
        }
    }

    // A weak write asks for its marks, for one element after the other, and for the end of its marks.
    fn weak_request(&self) -> Request
        ensures { result ≡ weak_request self.now.call self.now.ckpt self.now.marks }
    {
        match &self.marks {
            None => Request::Mark(self.call, self.ckpt),
            Some(marks) => {
                if marks.left == 0 {
                    Request::Unmark(self.call, self.ckpt)
                } else {
                    Request::Element(self.call, self.ckpt)
                }
            }
        }
    }

    /// It takes the active's reply to what it asks for: where its marks are made, it keeps them, and of them one
    /// element less is left behind each that is done. How that ends it, if it does.
    #[inline(always)]
    pub fn take(&mut self, cluster: &Record, reply: &Reply) -> Option<Outcome>
        ensures new { self.new ≡ active_told cluster.now reply.now self.old }
        ensures outcome { result ≡ active_outcome cluster.now reply.now self.old }
    {
        let request = self.request();
        self.keep(cluster, &request, reply.word());
        match reply {
            Reply::Done(answer) => end_of_done(&request, *answer),
            _ => refused_end(cluster, reply),
        }
    }

    // It keeps what a request has done that is told by this word.
    #[inline(always)]
    fn keep(&mut self, cluster: &Record, request: &Request, word: StepReply)
        ensures { self.new ≡ active_taken (done_of cluster.now (verb_of request.now) (Some (ckpt_of request.now)) None word) self.old }
    {
        let StepReply::Ok = word else {
            return;
        };
        match request {
            Request::Mark(_, ckpt) => {
                let generation = cluster.generation_of(*ckpt);
                let left = self.elements();
                self.marks = Some(MarksMade { generation, left });
            }
            Request::Element(_, _) => self.marks = element_taken(&self.marks),
            _ => {}
        }
    }

    // How many elements are to be done of what it asks for.
    fn elements(&self) -> u32
        ensures { result ≡ elements_of_kind self.now.kind }
    {
        match self.kind {
            ActiveKind::Weak(elements) => elements,
            _ => 0,
        }
    }
}

// How it ends by a reply that was done: a weak write goes on behind its marks and its elements.
#[inline(always)]
fn end_of_done(request: &Request, answer: Answer) -> Option<Outcome>
    ensures { result ≡ active_end answer (verb_of request.now) }
{
    match request {
        Request::Mark(_, _) | Request::Element(_, _) => None,
        _ => Some(Outcome::Done(answer)),
    }
}

// Where the generation is another than that of the marks, they are gone, and their call is to try again.
fn unless_changed(marks: &Option<MarksMade>, generation: u64, next: Next) -> Next
    ensures { result ≡ unless_changed marks.now generation next }
{
    match marks {
        None => next,
        Some(marks) => {
            if marks.generation == generation {
                next
            } else {
                Next::End(Outcome::Refused(
                    AisError::TryAgain,
                    Cause::Generations(marks.generation, generation),
                ))
            }
        }
    }
}

// The marks behind an element that was done.
fn element_taken(marks: &Option<MarksMade>) -> Option<MarksMade>
    ensures { result ≡ element_taken marks.now }
{
    match marks {
        None => None,
        Some(marks) => Some(MarksMade {
            generation: marks.generation,
            left: marks.left.saturating_sub(1),
        }),
    }
}
