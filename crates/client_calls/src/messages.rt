//! How the steps of calls are told.
ghost use Rattle.ckpt_types.specs.declared.identities.ActorName.TheVariants.{Client, Node};
ghost use Rattle.ckpt_types.specs.declared.identities.Who.TheVariants.{Actor};
ghost use Rattle.ckpt_types.specs.declared.words.OpWord.TheVariants as opwords;
ghost use Rattle.run_labels.specs.declared.words.LineWord.TheVariants as linewords;
ghost use Rattle.run_labels.specs.declared.words.Said.TheVariants.{Idle};
ghost use Rattle.client_calls.specs.LineWords.{step_word};
ghost use Rattle.std.specs.Prelude.{◌≡◌, Some, None};
ghost use Rattle.ckpt_types.specs.declared.answers.Answer.TheVariants as answers;
ghost use Rattle.ckpt_types.specs.declared.answers.Outcome.TheVariants.{Done};
ghost use Rattle.node_msgs.specs.declared.steps.StepReply.TheVariants as words;
ghost use Rattle.node_msgs.specs.declared.steps.Verb.TheVariants as verbs;
ghost use Rattle.node_msgs.specs.declared.details.Details.TheVariants as beside;
ghost use Rattle.node_msgs.specs.Requests.{ckpt_of};
ghost use Rattle.node_msgs.specs.Steps.{verb_of, word_of};
ghost use Rattle.run_labels.specs.declared.labels.Label.TheVariants as labels;
ghost use Rattle.ckpt_machine.specs.Due.{look_word};
ghost use Rattle.ckpt_machine.specs.Granting.{refusal_word};

use ckpt_types::{ActorName, Answer, CallId, CkptId, NodeId, Outcome, Who};
use node_msgs::{Details, Reply, Request, StepReply, Verb};
use run_labels::{Label, LineWord, OpWord, Said};

/// How a label tells an end that the record alone decides.
pub fn look_word(end: &Outcome) -> StepReply
    ensures { result ≡ look_word end.now }
{
    match end {
        Outcome::Done(_) => StepReply::Done,
        _ => StepReply::Refused,
    }
}

/// How a label tells a step of the record that is refused: for the memory that it takes, or by the record, whoever keeps
/// it off.
pub fn refusal_word(reply: &Reply) -> StepReply
    ensures { result ≡ refusal_word reply.now }
{
    match reply {
        Reply::NoMemory => StepReply::Memory,
        _ => StepReply::Refused,
    }
}

/// The step of a call, told with what it is about, what was answered, and how the call ends by it. Nothing is told
/// beside.
#[inline(always)]
pub fn stepped(
    call: CallId,
    op: OpWord,
    verb: Verb,
    ckpt: Option<CkptId>,
    node: Option<NodeId>,
    reply: StepReply,
    end: Option<Outcome>,
) -> Label
    ensures { result ≡ labels.Stepped call op verb ckpt node reply end beside.Nothing }
{
    Label::Stepped {
        call,
        op,
        verb,
        ckpt,
        node,
        reply,
        end,
        details: Details::Nothing,
    }
}

/// What a node has answered to a request of a call.
#[inline(always)]
pub fn served(
    call: CallId,
    op: OpWord,
    request: &Request,
    r: NodeId,
    reply: &Reply,
    end: Option<Outcome>,
    details: Details,
) -> Label
    ensures { result ≡ labels.Stepped call op (verb_of request.now) (Some (ckpt_of request.now)) (Some r) (word_of reply.now) end details }
{
    Label::Stepped {
        call,
        op,
        verb: request.verb(),
        ckpt: Some(request.ckpt()),
        node: Some(r),
        reply: reply.word(),
        end,
        details,
    }
}

/// A node has done what a call asked, and the call goes on.
#[inline(always)]
pub fn goes_on(call: CallId, op: OpWord, verb: Verb, ckpt: CkptId, r: NodeId) -> Label
    ensures { result ≡ labels.Stepped call op verb (Some ckpt) (Some r) words.Ok None beside.Nothing }
{
    stepped(call, op, verb, Some(ckpt), Some(r), StepReply::Ok, None)
}

/// A node has done what a call asked, and the call ends with OK, with nothing told beside it.
#[inline(always)]
pub fn done(call: CallId, op: OpWord, verb: Verb, ckpt: CkptId, r: NodeId) -> Label
    ensures { result ≡ labels.Stepped call op verb (Some ckpt) (Some r) words.Ok (Some (Done answers.Nothing)) beside.Nothing }
{
    let end = Some(Outcome::Done(Answer::Nothing));
    stepped(call, op, verb, Some(ckpt), Some(r), StepReply::Ok, end)
}

/// A look at the record has ended a call, and this is told beside it.
pub fn looked(call: CallId, op: OpWord, reply: StepReply, end: Outcome, details: Details) -> Label
    ensures { result ≡ labels.Stepped call op verbs.Look None None reply (Some end) details }
{
    Label::Stepped {
        call,
        op,
        verb: Verb::Look,
        ckpt: None,
        node: None,
        reply,
        end: Some(end),
        details,
    }
}

/// A word answers the line of a client that asks for this.
pub fn said(c: u8, op: OpWord, said: Said) -> Label
    ensures { result ≡ labels.Word (Actor (Client c)) (linewords.Op op) said }
{
    Label::Word(Who::Actor(ActorName::Client(c)), LineWord::Op(op), said)
}

/// A word answers the line of a node that copies.
pub fn said_of_node(r: NodeId, said: Said) -> Label
    ensures { result ≡ labels.Word (Actor (Node r)) (linewords.Op opwords.Copy) said }
{
    Label::Word(
        Who::Actor(ActorName::Node(r)),
        LineWord::Op(OpWord::Copy),
        said,
    )
}

/// No call is in hand under the name that a `step` or a `finish` line has.
pub fn idle_label(who: Who, finish: bool) -> Label
    ensures { result ≡ labels.Word who (step_word finish) Idle }
{
    let word = if finish {
        LineWord::Finish
    } else {
        LineWord::Step
    };
    Label::Word(who, word, Said::Idle)
}
