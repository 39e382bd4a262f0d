//! One call in hand, and the place in which it stands.
ghost use Rattle.std.specs.Prelude.{◌≡◌, ◌<◌, Some, None, is_some, IsSome};
ghost use Rattle.std.specs.Option.{option_and_then, option_map};
ghost use Rattle.ckpt_machine.specs.Driving.{index_told};
ghost use Rattle.ckpt_types.specs.OpWord.{word_of_op};
ghost use Rattle.ckpt_types.specs.declared.answers.Answer.TheVariants as answers;
ghost use Rattle.node_msgs.specs.declared.replies.Reply.TheVariants as replies;
ghost use Rattle.node_msgs.specs.declared.steps.StepReply.TheVariants as words;
ghost use Rattle.node_msgs.specs.declared.steps.Verb.TheVariants as verbs;
ghost use Rattle.client_calls.specs.UpdateSteps.{IsUpdate};
ghost use Rattle.client_calls.specs.MadeIds.{looked_details, looked_end, made_behind, pieces_of};
ghost use Rattle.ckpt_machine.specs.Due.{ended_details};
ghost use Rattle.node_core.specs.Details.{details_told, pieces_told};
ghost use Rattle.cluster_record.specs.Ends.{ended_unless};
ghost use Rattle.ckpt_types.specs.Limits.{nodes_max};
ghost use Rattle.cluster_record.specs.Calls.{left};
ghost use Rattle.cluster_record.specs.StepDone.{done_of};
ghost use Rattle.client_calls.specs.HandSteps.{hand_taken, hand_end};
ghost use Rattle.client_calls.specs.Taking.{hand_outcome, hand_told};
ghost use Rattle.client_calls.specs.CallStates.{synchronized_by};
ghost use Rattle.ckpt_types.specs.declared.identities.Who.TheVariants.{Actor};
ghost use Rattle.client_calls.specs.Names.{client_by};

use crate::details::told_details;
use crate::drivers::{Driver, DriverKind};
use crate::lending::creates;
use ckpt_types::{Answer, CallId, Cause, CkptId, NodeId, Op, Outcome, Pieces, ReadBuf, Who};
use cluster_record::{Record, number_of};
use node_core::Lent;
use node_msgs::{Details, Reply, Request};
use run_labels::OpWord;
use section_iter::Iteration;
use snap_copy::Snap;

/// A call that is begun and not ended.
#[derive(Drop)]
pub struct InHand {
    /// The call.
    pub call: CallId,
    /// What it asks for.
    pub op: Op,
    /// What drives it.
    pub driver: Driver,
    /// The room that it took for an iteration.
    pub iteration: Option<Iteration>,
    /// The room that it took for a snapshot, with what it has pulled.
    pub snapshot: Option<Snap>,
    /// The identifier of the section that a creation has made by its commits so far.
    pub made: Option<Pieces>,
}

impl InHand {
    /// The first word of the line that asked for the call.
    pub fn word(&self) -> OpWord
        ensures { result ≡ word_of_op self.now.op }
    {
        OpWord::of(&self.op)
    }

    /// It takes a reply: of a node to what is next, or of the record to a step, with the record behind that. What it ends
    /// with, if it ends.
    #[inline(always)]
    pub fn take(&mut self, cluster: &Record, reply: &Reply) -> Option<Outcome>
        ensures new { self.new ≡ hand_told cluster.now reply.now self.old }
        ensures outcome { result ≡ hand_outcome cluster.now reply.now self.old }
    {
        let outcome = match &mut self.driver.kind {
            DriverKind::Update(update) => update.take(cluster, reply),
            DriverKind::Active(active) => active.take(cluster, reply),
            DriverKind::Sync(sync) => sync.take(cluster, reply),
            DriverKind::Open(open_call) => open_call.take(cluster, reply),
            DriverKind::Once(step) => step.take(reply),
        };
        index_told(&self.op, outcome)
    }

    /// It takes that the record has done its step, on this checkpoint, with the record behind that, as `take` of that
    /// reply; an open does so sooner. What it ends with, if it ends.
    #[inline(never)]
    pub fn take_done(&mut self, cluster: &Record, ckpt: Option<CkptId>) -> Option<Outcome>
        ensures new { self.new ≡ hand_told cluster.now (replies.Done answers.Nothing) self.old }
        ensures outcome { result ≡ hand_outcome cluster.now (replies.Done answers.Nothing) self.old }
    {
        let DriverKind::Open(open_call) = &mut self.driver.kind else {
            return self.take(cluster, &Reply::Done(Answer::Nothing));
        };
        let outcome = open_call.take_step(cluster, ckpt);
        index_told(&self.op, outcome)
    }

    /// It takes that its step was refused, by the record or for the memory that it takes. What it ends with, if it ends.
    #[inline(never)]
    pub fn take_refusal(&mut self, cluster: &Record, reply: &Reply) -> Option<Outcome>
        ensures new { self.new ≡ hand_told cluster.now reply.now self.old }
        ensures outcome { result ≡ hand_outcome cluster.now reply.now self.old }
    {
        self.take(cluster, reply)
    }

    /// The update takes that a node has staged it.
    #[inline(always)]
    pub fn staged(&mut self, cluster: &Record, ckpt: CkptId, r: NodeId)
        requires update { IsUpdate self.old.driver }
        requires node { r < nodes_max }
        ensures { self.new ≡ hand_taken (done_of cluster.now verbs.Stage (Some ckpt) (Some r) words.Ok) self.old }
    {
        let DriverKind::Update(update) = &mut self.driver.kind else {
            unreachable!()
        };
        update.staged(cluster, ckpt, r);
    }

    /// The update takes that a node has committed it. Whether it goes on, having a slot left.
    #[inline(always)]
    pub fn committed(&mut self, cluster: &Record, ckpt: CkptId, r: NodeId) -> bool
        requires update { IsUpdate self.old.driver }
        requires node { r < nodes_max }
        ensures new { self.new ≡ hand_taken (done_of cluster.now verbs.Commit (Some ckpt) (Some r) words.Ok) self.old }
        ensures end { ended_unless result ≡ hand_end cluster.now (done_of cluster.now verbs.Commit (Some ckpt) (Some r) words.Ok) (replies.Done answers.Nothing) self.new }
    {
        let DriverKind::Update(update) = &mut self.driver.kind else {
            unreachable!()
        };
        update.committed(cluster, ckpt, r)
    }

    /// The room that it has for a snapshot is taken out of it, with what it has pulled.
    pub fn lend_snapshot(&mut self) -> Option<Snap>
        ensures lent { result ≡ self.old.snapshot }
        ensures new { self.new ≡ record self.old { snapshot = None } }
    {
        self.snapshot.take()
    }

    /// What the label of a step tells beside its end, where it ended the call: what came with the reply. Behind a commit
    /// that does not end it, a creation keeps the identifier that this has told. It takes no memory.
    pub fn tell(
        &mut self,
        request: &Request,
        reply: &Reply,
        end: &Option<Outcome>,
        lent: Lent,
    ) -> Details
        ensures details { result ≡ ended_details end.now (details_told reply.now lent) }
        ensures made { left end.now self.new ≡ left end.now (record self.old { made = made_behind self.old.op request.now reply.now (details_told reply.now lent) self.old.made }) }
    {
        match end {
            None => {
                let mut lent = lent;
                self.keep_made(request, reply, &mut lent);
                Details::Nothing
            }
            Some(_) => told_details(end, reply, lent),
        }
    }

    // A creation keeps the identifier that its commit has told.
    #[inline(always)]
    fn keep_made(&mut self, request: &Request, reply: &Reply, lent: &mut Lent)
        ensures { self.new ≡ record self.old { made = made_behind self.old.op request.now reply.now (details_told reply.now lent.old) self.old.made } }
    {
        if let (Request::Commit(_, _), Reply::Done(Answer::Created)) = (request, reply) {
            if creates(&self.op) {
                self.made = pieces_kept(lent.read.take());
            }
        }
    }

    /// How a look ends the call, by what the record says, and what is told beside that: of a creation of which nothing is
    /// left the identifier that it has made.
    #[inline(never)]
    pub fn look(&mut self, end: Outcome) -> (Outcome, Details)
        ensures end { result.0 ≡ looked_end self.old.op end }
        ensures details { result.1 ≡ looked_details result.0 self.old.made }
        ensures new { self.new ≡ record self.old { made = None } }
    {
        let end = look_end(&self.op, end);
        let details = look_details(&end, self.made.take());
        (end, details)
    }

    /// The checkpoint that it synchronizes, or whose active it sets.
    pub fn synchronized(&self) -> CkptId
        requires { IsSome (synchronized_by self.now.driver) }
        ensures { synchronized_by self.now.driver ≡ Some result }
    {
        let DriverKind::Sync(sync) = &self.driver.kind else {
            unreachable!()
        };
        sync.ckpt()
    }
}

// The pieces in a buffer, if there is one.
fn pieces_kept(read: Option<ReadBuf>) -> Option<Pieces>
    ensures { result ≡ pieces_of (pieces_told read) }
{
    match read {
        None => None,
        Some(read) => Some(Pieces::from_buf(read)),
    }
}

// How a look ends a call: where nothing is left of an update, by what that answers.
fn look_end(op: &Op, end: Outcome) -> Outcome
    ensures { result ≡ looked_end op.now end }
{
    match end {
        Outcome::Done(Answer::Nothing) => {
            if creates(op) {
                Outcome::Done(Answer::Created)
            } else {
                end
            }
        }
        _ => end,
    }
}

// What is told beside the end of a look: what a creation has kept.
fn look_details(end: &Outcome, made: Option<Pieces>) -> Details
    ensures { result ≡ looked_details end.now made }
{
    match (end, made) {
        (Outcome::Done(Answer::Created), Some(pieces)) => Details::Pieces(pieces),
        _ => Details::Nothing,
    }
}

// A refusal of a vector tells the index of its first refused element, and any other tells none.
#[inline(always)]
pub(crate) fn index_told(op: &Op, outcome: Option<Outcome>) -> Option<Outcome>
    ensures { result ≡ option_map (index_told op.now) outcome }
{
    let Some(Outcome::Refused(error, Cause::Index(_))) = outcome else {
        return outcome;
    };
    match op {
        Op::Write(_, _) | Op::Read(_, _) => outcome,
        _ => Some(Outcome::Refused(error, Cause::Plain)),
    }
}

/// What one place has of a snapshot is in the other from then on. Where there is none, as of most calls, nothing is moved.
pub fn hand_over(from: &mut Option<Snap>, to: &mut Option<Snap>)
    ensures from { from.new ≡ None }
    ensures to { to.new ≡ from.old }
{
    if from.is_some() || to.is_some() {
        *to = from.take();
    }
}

/// The number of the client whose call is stepped by this name.
pub fn client_by(who: Who) -> u8
    ensures { result ≡ client_by who }
{
    match who {
        Who::Actor(actor) => number_of(&actor),
        Who::Call(call) => number_of(&call.actor),
    }
}

/// A call that has ended is in hand no more.
pub fn let_go(slot: &mut Option<InHand>, end: &Option<Outcome>)
    ensures { slot.new ≡ option_and_then (left end.now) slot.old }
{
    if end.is_some() {
        clear(slot);
    }
}

/// The call of a place is in hand no more. What it owns is given back here, and its callers know nothing of that.
#[inline(always)]
pub fn clear(slot: &mut Option<InHand>)
    ensures { slot.new ≡ None }
{
    *slot = None;
}

/// A call that begins comes to its place. None is there, so nothing is given back.
#[inline(always)]
pub fn take_place(slot: &mut Option<InHand>, hand: InHand)
    requires { slot.old ≡ None }
    ensures { slot.new ≡ Some hand }
{
    if slot.is_some() {
        unreachable!()
    }
    *slot = Some(hand);
}
