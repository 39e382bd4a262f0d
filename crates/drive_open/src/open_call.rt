//! The driver of an open.
ghost use Rattle.std.specs.Prelude.{◌≡◌, ◌<◌, Some, None, IfOk};
ghost use Rattle.ckpt_types.specs.Limits.{nodes_max};
ghost use Rattle.ckpt_types.specs.declared.answers.Answer.TheVariants as answers;
ghost use Rattle.node_msgs.specs.declared.replies.Reply.TheVariants as replies;
ghost use Rattle.cluster_record.specs.RecordState.{named};
ghost use Rattle.node_msgs.specs.Requests.{ckpt_of};
ghost use Rattle.node_msgs.specs.Steps.{verb_of};
ghost use Rattle.cluster_record.specs.DueOpen.{open_begun, making_ckpt, in_time, create_next, entry_next, on_free_name, on_named, on_making, made_of, open_next, open_taken};
ghost use Rattle.cluster_record.specs.Ends.{IsAtANode, made_in, making_step_end, named_outcome, named_told, open_outcome, open_told, opened_in};
ghost use Rattle.cluster_record.specs.StepDone.{done_of};
ghost use Rattle.cluster_record.specs.Opening.{found_in};

use ckpt_types::{
    AisError, Answer, Bytes, CHECKPOINTS_MAX, CallId, Cause, CkptId, CreationAttributes,
    HANDLES_MAX, Moment, NODES_MAX, NodeId, OpenAsk, Outcome, SharedAttributes, SharedName,
};
use cluster_record::{Entry, Making, Record, accepts, first_lacking, in_time, is_own, refused_end};
use node_msgs::{Next, RecordStep, Reply, Request, StepReply};
use std::alloc::{AllocError, Global};
use std::marker::Model;

/// What an open asks of the record, whose name and attributes its operation and the log share.
#[derive(Drop)]
pub struct SharedAsk {
    /// The checkpoint's name.
    pub name: SharedName,
    /// The attributes to make it with, where it may be made.
    pub attributes: SharedAttributes,
    /// The client that opens it.
    pub client: u8,
    /// That client's node.
    pub node: NodeId,
}

impl Model for SharedAsk {
    ghost use Rattle.ckpt_types.specs.declared.calls.OpenAsk.{OpenAsk};

    ghost Value = { OpenAsk };

    ghost use Rattle.drive_open.specs.OpenStates.{ask_of};

    ghost view = { ask_of };
}

impl SharedAsk {
    /// The checkpoint's name.
    pub fn name(&self) -> &Bytes
        ensures { result.now ≡ self.now.name }
    {
        self.name.value()
    }

    /// The attributes to make it with, where it may be made.
    pub fn attributes(&self) -> &Option<CreationAttributes>
        ensures { result.now ≡ self.now.attrs }
    {
        self.attributes.value()
    }

    /// The same, with a name of its own.
    pub fn to_ask(&self) -> Result<OpenAsk, AllocError>
        ensures { IfOk result (λ ask. ask ≡ self.now) }
    {
        Ok(OpenAsk {
            name: self.name.value().clone()?,
            attrs: *self.attributes.value(),
            client: self.client,
            node: self.node,
        })
    }

    // An equal one, with shares of the name and the attributes.
    fn copy(&self) -> Result<SharedAsk, AllocError>
        ensures { IfOk result (λ copy. copy ≡ self.now) }
    {
        Ok(SharedAsk {
            name: self.name.share()?,
            attributes: self.attributes.share()?,
            client: self.client,
            node: self.node,
        })
    }
}

/// The driver of an open.
#[derive(Drop)]
pub struct OpenCall {
    call: CallId,
    ask: SharedAsk,
    // The moment from which on it is too late, if it has a timeout.
    deadline: Option<Moment>,
    // What it is making, if it is.
    making: Option<Making>,
}

impl Model for OpenCall {
    ghost use Rattle.cluster_record.specs.DueOpen.{OpenState};

    ghost Value = { OpenState };

    ghost use Rattle.drive_open.specs.OpenStates.{open_state};

    ghost view = { open_state };
}

impl OpenCall {
    /// The open of a call that begins: it is making nothing.
    pub fn begin(call: CallId, ask: SharedAsk, deadline: Option<Moment>) -> OpenCall
        ensures { result ≡ open_begun call ask deadline }
    {
        OpenCall {
            call,
            ask,
            deadline,
            making: None,
        }
    }

    /// An equal call, with shares of the name and the attributes. It takes no memory, and fails only where the shares
    /// can't be counted.
    pub fn copy(&self, _alloc: Global) -> Result<OpenCall, AllocError>
        ensures { IfOk result (λ copy. copy ≡ self.now) }
    {
        Ok(OpenCall {
            call: self.call,
            ask: self.ask.copy()?,
            deadline: self.deadline,
            making: self.making,
        })
    }

    /// What it asks of the record.
    pub fn ask(&self) -> &SharedAsk
        ensures { result.now ≡ self.now.ask }
    {
        &self.ask
    }

    /// The name of the checkpoint that it asks for.
    pub fn name(&self) -> &Bytes
        ensures { result.now ≡ self.now.ask.name }
    {
        self.ask.name()
    }

    /// The checkpoint that it is making, if it is.
    pub fn making(&self) -> Option<CkptId>
        ensures { result ≡ making_ckpt self.now.making }
    {
        match &self.making {
            None => None,
            Some(making) => Some(making.ckpt),
        }
    }

    /// The checkpoint that has its name, if one has; where a call is making that, this call.
    pub fn found(&self, cluster: &Record) -> Result<Option<CkptId>, CallId>
        ensures { result ≡ found_in (named self.now.ask.name cluster.now.entries) }
    {
        match cluster.named(self.ask.name()) {
            None => Ok(None),
            Some(entry) => match entry.making {
                None => Ok(Some(entry.identity)),
                Some(call) => Err(call),
            },
        }
    }

    /// What it does next; `room` tells whether the client has a free place for a handle.
    pub fn next(&self, cluster: &Record, room: bool) -> Next
        ensures { result ≡ open_next cluster.now room self.now }
    {
        match &self.making {
            None => self.named_next(cluster, room),
            Some(making) => in_time(
                self.deadline,
                cluster.now(),
                self.making_next(making, cluster),
            ),
        }
    }

    // The next step of a making before its deadline.
    fn making_next(&self, making: &Making, cluster: &Record) -> Next
        ensures next { result ≡ on_making cluster.now self.now.ask making.now }
        ensures at { IsAtANode result }
    {
        if making.refused {
            return Next::Event(RecordStep::Undo);
        }
        let targets = cluster.targets(self.ask.attributes(), self.ask.client);
        match first_lacking(&targets, &making.reserved) {
            Some(r) => Next::Serve(r, Request::Reserve(making.ckpt)),
            None => Next::Event(RecordStep::Finish),
        }
    }

    fn named_next(&self, cluster: &Record, room: bool) -> Next
        ensures { result ≡ on_named cluster.now room self.now.deadline self.now.ask.attrs (named self.now.ask.name cluster.now.entries) }
    {
        match cluster.named(self.ask.name()) {
            None => free_next(cluster, room, self.deadline, self.ask.attributes()),
            Some(entry) => {
                let next = entry_next(room, self.ask.attributes(), entry);
                in_time(self.deadline, cluster.now(), next)
            }
        }
    }

    /// It takes a reply: of a node to what is next, or of the record to a step, with the record behind that. How it
    /// ends it, if it does; what the record alone decides ends it so.
    pub fn take(&mut self, cluster: &Record, reply: &Reply) -> Option<Outcome>
        ensures new { self.new ≡ open_told cluster.now reply.now self.old }
        ensures outcome { result ≡ open_outcome cluster.now reply.now self.old }
    {
        let Some(making) = self.making else {
            return self.take_named(cluster, reply);
        };
        match in_time(
            self.deadline,
            cluster.now(),
            self.making_next(&making, cluster),
        ) {
            Next::Serve(r, request) => {
                self.keep(cluster, r, &request, reply.word());
                refused_end(cluster, reply)
            }
            Next::Event(step) => making_step_end(cluster, reply, &making, step),
            Next::End(outcome) => Some(outcome),
        }
    }

    /// It takes that the record has done its step, on this checkpoint, as `take` of that reply, and sooner.
    pub fn take_step(&mut self, cluster: &Record, ckpt: Option<CkptId>) -> Option<Outcome>
        ensures new { self.new ≡ open_told cluster.now (replies.Done answers.Nothing) self.old }
        ensures outcome { result ≡ open_outcome cluster.now (replies.Done answers.Nothing) self.old }
    {
        if self.making.is_none() {
            return self.take_done(cluster, ckpt);
        }
        self.take(cluster, &Reply::Done(Answer::Nothing))
    }

    // While it makes nothing: it keeps what it is making then, or has opened what has its name.
    fn take_named(&mut self, cluster: &Record, reply: &Reply) -> Option<Outcome>
        ensures new { self.new ≡ named_told cluster.now reply.now self.old }
        ensures outcome { result ≡ named_outcome cluster.now reply.now self.old }
    {
        match reply {
            Reply::Done(_) => self.take_done(cluster, None),
            Reply::NoMemory => Some(Outcome::NoMemory),
            _ => refused_end(cluster, reply),
        }
    }

    // The record has made its checkpoint, or opened what has its name, which is likely this one.
    fn take_done(&mut self, cluster: &Record, likely: Option<CkptId>) -> Option<Outcome>
        ensures new { self.new ≡ record self.old { making = made_in self.old.call (named self.old.ask.name cluster.now.entries) } }
        ensures outcome { result ≡ opened_in self.old.call (named self.old.ask.name cluster.now.entries) }
    {
        self.making = None;
        let entry = cluster.known_as(self.ask.name(), likely)?;
        if !is_own(self.call, entry.making) {
            return Some(Outcome::Done(Answer::Opened(entry.identity)));
        }
        self.making = made_of(Some(entry.identity));
        None
    }

    // It keeps what a node has answered to a reservation.
    fn keep(&mut self, cluster: &Record, r: NodeId, request: &Request, word: StepReply)
        requires { r < nodes_max }
        ensures { self.new ≡ open_taken (done_of cluster.now (verb_of request.now) (Some (ckpt_of request.now)) (Some r) word) self.old }
    {
        let Request::Reserve(_) = request else {
            return;
        };
        let Some(making) = &mut self.making else {
            return;
        };
        match word {
            StepReply::Ok => {
                let up = cluster.incarnations();
                making.reserved[r as usize] = up[r as usize];
            }
            StepReply::Memory => making.refused = true,
            _ => {}
        }
    }
}

// How a making ends by what the record answers to its step: opened where it is finished, and with NO_MEMORY where it is
// undone.
fn making_step_end(
    cluster: &Record,
    reply: &Reply,
    making: &Making,
    step: RecordStep,
) -> Option<Outcome>
    ensures { result ≡ making_step_end cluster.now reply.now making.now step }
{
    let Reply::Done(_) = reply else {
        return refused_end(cluster, reply);
    };
    match step {
        RecordStep::Finish => Some(Outcome::Done(Answer::Opened(making.ckpt))),
        RecordStep::Undo => Some(Outcome::NoMemory),
        _ => None,
    }
}

fn made_of(ckpt: Option<CkptId>) -> Option<Making>
    ensures { result ≡ made_of ckpt }
{
    match ckpt {
        None => None,
        Some(ckpt) => Some(Making {
            ckpt,
            reserved: [0; NODES_MAX],
            refused: false,
        }),
    }
}

fn free_next(
    cluster: &Record,
    room: bool,
    deadline: Option<Moment>,
    attributes: &Option<CreationAttributes>,
) -> Next
    ensures { result ≡ on_free_name cluster.now room deadline attributes.now }
{
    match attributes {
        None => Next::End(Outcome::Refused(AisError::NotExist, Cause::Plain)),
        Some(_) => in_time(deadline, cluster.now(), create_next(cluster, room)),
    }
}

fn create_next(cluster: &Record, room: bool) -> Next
    ensures { result ≡ create_next cluster.now room }
{
    if !room {
        Next::End(Outcome::Refused(AisError::NoResources, Cause::Count(HANDLES_MAX as u32)))
    } else if cluster.entries_len() >= CHECKPOINTS_MAX {
        Next::End(Outcome::Refused(AisError::NoResources, Cause::Count(CHECKPOINTS_MAX as u32)))
    } else {
        Next::Event(RecordStep::Create)
    }
}

fn entry_next(room: bool, attributes: &Option<CreationAttributes>, entry: &Entry) -> Next
    ensures { result ≡ entry_next room attributes.now entry.now }
{
    if entry.making.is_some() {
        Next::Event(RecordStep::Open)
    } else if !accepts(entry, attributes) {
        Next::End(Outcome::Refused(AisError::Exist, Cause::Plain))
    } else if !room {
        Next::End(Outcome::Refused(AisError::NoResources, Cause::Count(HANDLES_MAX as u32)))
    } else {
        Next::Event(RecordStep::Open)
    }
}
