//! The lines that one label prints.
ghost use Rattle.std.specs.Prelude.{◌≡◌, [], ◌++◌, true, false, IfOk, OnOk};
ghost use Rattle.ckpt_types.specs.OpWord.{word_of_op};
ghost use Rattle.run_labels.specs.Outcomes.{end_text};
ghost use Rattle.run_labels.specs.Steps.{where_asked, begin_line, step_line, moment_line};
ghost use Rattle.run_labels.specs.Lines.{line_of};

use crate::events::{append_fail, append_join, append_pull, append_put, append_word};
use crate::labels::Label;
use crate::outcomes::{append_begun_end, append_stepped_end};
use crate::shows::append_shown;
use crate::steps::{append_begin, append_moment, append_step};
use ckpt_types::{Bytes, CallId, CkptId, Moment, NodeId, Op, OpWord, Outcome};
use node_msgs::{Details, StepReply, Verb};
use std::alloc::{AllocError, Global};

/// What a label prints, with the lines of steps or without them. Its callbacks have lines of their own.
pub fn render_line(alloc: Global, label: &Label, steps: bool) -> Result<Bytes, AllocError>
    ensures { IfOk result (λ text. text ≡ line_of steps label.now) }
{
    let mut out = Vec::new(alloc);
    append_line(&mut out, label, steps)?;
    Ok(Bytes::from_vec(out))
}

/// Adds what a label prints behind what the buffer has, but for the lines of its callbacks. After an error,
/// which is want of memory, the buffer may have a part of it.
pub fn append_line(out: &mut Vec<u8>, label: &Label, steps: bool) -> Result<(), AllocError>
    ensures { OnOk result (out.new.items ≡ out.old.items ++ line_of steps label.now) }
{
    // Most labels of an update on several nodes, so they are passed over before all else.
    if !steps && goes_on(label) {
        return Ok(());
    }
    append_told(out, label, steps)
}

/// Whether a label is a step by which its call goes on. Without the lines of steps it prints nothing.
#[inline(always)]
fn goes_on(label: &Label) -> bool
    ensures { result ≡ true → line_of false label.now ≡ [] }
{
    match label {
        Label::Stepped { end, .. } => end.is_none(),
        _ => false,
    }
}

/// What a label prints that may print something.
#[inline(always)]
fn append_told(out: &mut Vec<u8>, label: &Label, steps: bool) -> Result<(), AllocError>
    ensures { OnOk result (out.new.items ≡ out.old.items ++ line_of steps label.now) }
{
    match label {
        Label::Began {
            call,
            op,
            end,
            details,
        } => append_began(out, call, op, end, details, steps),
        Label::Stepped {
            call,
            op,
            verb,
            ckpt,
            node,
            reply,
            end,
            details,
        } => {
            append_asked_step(out, call, *verb, ckpt, node, reply, steps)?;
            append_stepped_end(out, call, *op, end, details)
        }
        Label::Failed(node, failed) => append_fail(out, *node, *failed),
        Label::Joined(node, incarnation) => append_join(out, *node, *incarnation),
        Label::Moved(moment) => append_moved(out, *moment, steps),
        Label::Pulled(ckpt, reply) => append_pull(out, *ckpt, *reply),
        Label::Put(ckpt, node, reply) => append_put(out, *ckpt, *node, *reply),
        Label::Shown(ckpt, replicas) => append_shown(out, *ckpt, replicas),
        Label::Word(who, line, said) => append_word(out, *who, *line, *said),
        Label::Nodes(_) => Ok(()),
    }
}

/// What a beginning prints.
#[inline(always)]
fn append_began(
    out: &mut Vec<u8>,
    call: &CallId,
    op: &Op,
    end: &Option<Outcome>,
    details: &Details,
    steps: bool,
) -> Result<(), AllocError>
    ensures { OnOk result (out.new.items ≡ out.old.items ++ (where_asked steps (begin_line call.now (word_of_op op.now)) ++ end_text call.now (word_of_op op.now) end.now details.now)) }
{
    let word = OpWord::of(op);
    append_asked_begin(out, call, word, steps)?;
    append_begun_end(out, call, word, end, details)
}

/// The line of a call that begins, where steps are asked for.
#[inline(always)]
fn append_asked_begin(
    out: &mut Vec<u8>,
    call: &CallId,
    op: OpWord,
    steps: bool,
) -> Result<(), AllocError>
    ensures { OnOk result (out.new.items ≡ out.old.items ++ where_asked steps (begin_line call.now op)) }
{
    if steps {
        append_begin(out, *call, op)
    } else {
        Ok(())
    }
}

/// The line of a step, where steps are asked for.
#[inline(always)]
fn append_asked_step(
    out: &mut Vec<u8>,
    call: &CallId,
    verb: Verb,
    ckpt: &Option<CkptId>,
    node: &Option<NodeId>,
    reply: &StepReply,
    steps: bool,
) -> Result<(), AllocError>
    ensures { OnOk result (out.new.items ≡ out.old.items ++ where_asked steps (step_line call.now verb ckpt.now node.now reply.now)) }
{
    if steps {
        append_step(out, *call, verb, *ckpt, *node, *reply)
    } else {
        Ok(())
    }
}

/// What a moment that was set prints.
#[inline(always)]
fn append_moved(out: &mut Vec<u8>, moment: Moment, steps: bool) -> Result<(), AllocError>
    ensures { OnOk result (out.new.items ≡ out.old.items ++ where_asked steps (moment_line moment)) }
{
    if steps {
        append_moment(out, moment)
    } else {
        Ok(())
    }
}
