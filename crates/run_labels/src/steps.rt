//! The lines of beginnings, steps and moments, which begin with `+`.
ghost use Rattle.std.specs.Prelude.{◌≡◌, ◌++◌, OnOk};
ghost use Rattle.run_labels.specs.Steps.{reply_text, step_ckpt_text, step_node_text, step_place_text, step_front, step_line, begin_line, moment_line};

use crate::texts::{
    append_call, append_ckpt, append_counted, append_node, append_of_call, append_text, append_time,
};
use crate::words::verb_word;
use ckpt_types::{CallId, CkptId, Moment, NodeId, OpWord};
use node_msgs::{StepReply, Verb};
use std::alloc::AllocError;

/// The line of a call that begins.
#[inline(never)]
pub(crate) fn append_begin(out: &mut Vec<u8>, call: CallId, op: OpWord) -> Result<(), AllocError>
    ensures { OnOk result (out.new.items ≡ out.old.items ++ begin_line call op) }
{
    append_text(out, "+ ")?;
    append_call(out, call)?;
    append_text(out, " begin ")?;
    append_text(out, op.word())?;
    append_text(out, "\n")
}

/// The line of a step.
#[inline(never)]
pub(crate) fn append_step(
    out: &mut Vec<u8>,
    call: CallId,
    verb: Verb,
    ckpt: Option<CkptId>,
    node: Option<NodeId>,
    reply: StepReply,
) -> Result<(), AllocError>
    ensures { OnOk result (out.new.items ≡ out.old.items ++ step_line call verb ckpt node reply) }
{
    append_step_front(out, call, verb)?;
    append_step_place(out, ckpt, node)?;
    append_text(out, " ")?;
    append_reply(out, reply)?;
    append_text(out, "\n")
}

/// Which call steps, and what it does.
fn append_step_front(out: &mut Vec<u8>, call: CallId, verb: Verb) -> Result<(), AllocError>
    ensures { OnOk result (out.new.items ≡ out.old.items ++ step_front call verb) }
{
    append_text(out, "+ ")?;
    append_call(out, call)?;
    append_text(out, " ")?;
    append_text(out, verb_word(verb))
}

/// The checkpoint and the node of a step, where it has them.
fn append_step_place(
    out: &mut Vec<u8>,
    ckpt: Option<CkptId>,
    node: Option<NodeId>,
) -> Result<(), AllocError>
    ensures { OnOk result (out.new.items ≡ out.old.items ++ step_place_text ckpt node) }
{
    append_step_ckpt(out, ckpt)?;
    append_step_node(out, node)
}

/// The line of a moment that was set.
#[inline(never)]
pub(crate) fn append_moment(out: &mut Vec<u8>, moment: Moment) -> Result<(), AllocError>
    ensures { OnOk result (out.new.items ≡ out.old.items ++ moment_line moment) }
{
    append_text(out, "+ at ")?;
    append_time(out, moment)?;
    append_text(out, "\n")
}

/// The checkpoint of a step, where it has one.
fn append_step_ckpt(out: &mut Vec<u8>, ckpt: Option<CkptId>) -> Result<(), AllocError>
    ensures { OnOk result (out.new.items ≡ out.old.items ++ step_ckpt_text ckpt) }
{
    match ckpt {
        None => Ok(()),
        Some(ckpt) => {
            append_text(out, " ")?;
            append_ckpt(out, ckpt)
        }
    }
}

/// The node of a step, where it has one.
fn append_step_node(out: &mut Vec<u8>, node: Option<NodeId>) -> Result<(), AllocError>
    ensures { OnOk result (out.new.items ≡ out.old.items ++ step_node_text node) }
{
    match node {
        None => Ok(()),
        Some(node) => {
            append_text(out, " ")?;
            append_node(out, node)
        }
    }
}

/// How a step was answered.
fn append_reply(out: &mut Vec<u8>, reply: StepReply) -> Result<(), AllocError>
    ensures { OnOk result (out.new.items ≡ out.old.items ++ reply_text reply) }
{
    match reply {
        StepReply::Ok => append_text(out, "ok"),
        StepReply::Done => append_text(out, "done"),
        StepReply::Held(call) => append_of_call(out, "held ", call),
        StepReply::Free(count) => append_counted(out, "free ", count),
        StepReply::Refused => append_text(out, "refused"),
        StepReply::Older => append_text(out, "older"),
        StepReply::Memory => append_text(out, "memory"),
    }
}
