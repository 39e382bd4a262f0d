//! Whether two labels are the same.
ghost use Rattle.std.specs.Prelude.{◌≡◌, Decides};
ghost use Rattle.run_labels.specs.declared.labels.Label.TheVariants as labels;

use crate::details::same_details;
use crate::ends::same_end;
use crate::operations::same_operation;
use crate::shows::same_shown;
use crate::steps::{
    same_line_word, same_op_word, same_pull, same_put, same_reply, same_said, same_verb,
};
use ckpt_types::{CallId, CkptId, Incarnation, Moment, NodeId, Op, Outcome, Who};
use node_msgs::{Details, StepReply, Verb};
use run_labels::{Label, LineWord, OpWord, PullReply, PutReply, Said, ShownReplicas};

/// Whether both labels are the same: of one event, with all that it tells.
pub fn same_label(one: &Label, other: &Label) -> bool
    ensures { Decides result (one.now ≡ other.now) }
{
    match other {
        Label::Began {
            call,
            op,
            end,
            details,
        } => is_beginning(one, *call, op, end, details),
        Label::Stepped {
            call,
            op,
            verb,
            ckpt,
            node,
            reply,
            end,
            details,
        } => { is_step(one, *call, *op, *verb, *ckpt, *node, *reply, end, details) }
        Label::Failed(node, was_up) => is_failure(one, *node, *was_up),
        Label::Joined(node, incarnation) => is_join(one, *node, *incarnation),
        Label::Moved(moment) => is_moved(one, *moment),
        Label::Pulled(ckpt, reply) => is_pull(one, *ckpt, *reply),
        Label::Put(ckpt, node, reply) => is_put(one, *ckpt, *node, *reply),
        Label::Shown(ckpt, replicas) => is_show(one, *ckpt, replicas),
        Label::Word(who, line, said) => is_word(one, *who, *line, *said),
        Label::Nodes(count) => is_nodes(one, *count),
    }
}

fn is_beginning(
    label: &Label,
    call: CallId,
    op: &Op,
    end: &Option<Outcome>,
    details: &Details,
) -> bool
    ensures { Decides result (label.now ≡ labels.Began call op.now end.now details.now) }
{
    let Label::Began {
        call: other,
        op: asked,
        end: ended,
        details: told,
    } = label
    else {
        return false;
    };
    if *other != call {
        return false;
    }
    if !same_end(ended, end) {
        return false;
    }
    if !same_operation(asked, op) {
        return false;
    }
    same_details(told, details)
}

fn is_step(
    label: &Label,
    call: CallId,
    op: OpWord,
    verb: Verb,
    ckpt: Option<CkptId>,
    node: Option<NodeId>,
    reply: StepReply,
    end: &Option<Outcome>,
    details: &Details,
) -> bool
    ensures { Decides result (label.now ≡ labels.Stepped call op verb ckpt node reply end.now details.now) }
{
    let Label::Stepped {
        call: other,
        op: word,
        verb: did,
        ckpt: of,
        node: at,
        reply: answered,
        end: ended,
        details: told,
    } = label
    else {
        return false;
    };
    if *other != call {
        return false;
    }
    if !same_op_word(*word, op) {
        return false;
    }
    if !same_verb(*did, verb) {
        return false;
    }
    if *of != ckpt {
        return false;
    }
    if *at != node {
        return false;
    }
    if !same_reply(*answered, reply) {
        return false;
    }
    if !same_end(ended, end) {
        return false;
    }
    same_details(told, details)
}

fn is_failure(label: &Label, node: NodeId, was_up: bool) -> bool
    ensures { Decides result (label.now ≡ labels.Failed node was_up) }
{
    let Label::Failed(other, fell) = label else {
        return false;
    };
    if *other != node {
        return false;
    }
    *fell == was_up
}

fn is_join(label: &Label, node: NodeId, incarnation: Option<Incarnation>) -> bool
    ensures { Decides result (label.now ≡ labels.Joined node incarnation) }
{
    let Label::Joined(other, came) = label else {
        return false;
    };
    if *other != node {
        return false;
    }
    *came == incarnation
}

fn is_moved(label: &Label, moment: Moment) -> bool
    ensures { Decides result (label.now ≡ labels.Moved moment) }
{
    match label {
        Label::Moved(other) => *other == moment,
        _ => false,
    }
}

fn is_pull(label: &Label, ckpt: CkptId, reply: PullReply) -> bool
    ensures { Decides result (label.now ≡ labels.Pulled ckpt reply) }
{
    let Label::Pulled(other, answered) = label else {
        return false;
    };
    if *other != ckpt {
        return false;
    }
    same_pull(*answered, reply)
}

fn is_put(label: &Label, ckpt: CkptId, node: NodeId, reply: PutReply) -> bool
    ensures { Decides result (label.now ≡ labels.Put ckpt node reply) }
{
    let Label::Put(other, at, answered) = label else {
        return false;
    };
    if *other != ckpt {
        return false;
    }
    if *at != node {
        return false;
    }
    same_put(*answered, reply)
}

fn is_show(label: &Label, ckpt: CkptId, replicas: &Option<ShownReplicas>) -> bool
    ensures { Decides result (label.now ≡ labels.Shown ckpt replicas.now) }
{
    let Label::Shown(other, shown) = label else {
        return false;
    };
    if *other != ckpt {
        return false;
    }
    same_shown(shown, replicas)
}

fn is_word(label: &Label, who: Who, line: LineWord, said: Said) -> bool
    ensures { Decides result (label.now ≡ labels.Word who line said) }
{
    let Label::Word(other, answered, told) = label else {
        return false;
    };
    if *other != who {
        return false;
    }
    if !same_line_word(*answered, line) {
        return false;
    }
    same_said(*told, said)
}

fn is_nodes(label: &Label, count: u8) -> bool
    ensures { Decides result (label.now ≡ labels.Nodes count) }
{
    match label {
        Label::Nodes(other) => *other == count,
        _ => false,
    }
}
