//! The lines of failures, joins, pulls, puts and words.
ghost use Rattle.std.specs.Prelude.{◌≡◌, ◌++◌, OnOk};
ghost use Rattle.run_labels.specs.Events.{failed_text, fail_line, joined_text, join_line, pulled_text, pull_line, put_text, put_line, word_line};

use crate::labels::{PullReply, PutReply};
use crate::texts::{
    append_ckpt, append_counted, append_node, append_of_call, append_spaced, append_text,
    append_who,
};
use crate::words::{LineWord, Said};
use ckpt_types::{CkptId, Incarnation, NodeId, Who};
use std::alloc::AllocError;

/// The line of a failure.
#[inline(never)]
pub(crate) fn append_fail(out: &mut Vec<u8>, node: NodeId, failed: bool) -> Result<(), AllocError>
    ensures { OnOk result (out.new.items ≡ out.old.items ++ fail_line node failed) }
{
    append_node(out, node)?;
    append_text(out, " fail ")?;
    append_text(out, failed_word(failed))?;
    append_text(out, "\n")
}

/// Whether the node failed, or was not up.
fn failed_word(failed: bool) -> &'static str
    ensures { result.now ≡ failed_text failed }
{
    if failed { "OK" } else { "DOWN" }
}

/// The line of a join.
#[inline(never)]
pub(crate) fn append_join(
    out: &mut Vec<u8>,
    node: NodeId,
    incarnation: Option<Incarnation>,
) -> Result<(), AllocError>
    ensures { OnOk result (out.new.items ≡ out.old.items ++ join_line node incarnation) }
{
    append_node(out, node)?;
    append_text(out, " join ")?;
    append_joined(out, incarnation)?;
    append_text(out, "\n")
}

/// The incarnation in which the node came up, or that it was up.
fn append_joined(out: &mut Vec<u8>, incarnation: Option<Incarnation>) -> Result<(), AllocError>
    ensures { OnOk result (out.new.items ≡ out.old.items ++ joined_text incarnation) }
{
    match incarnation {
        None => append_text(out, "LIVE"),
        Some(incarnation) => append_counted(out, "OK ", u64::from(incarnation)),
    }
}

/// The line of a pull.
#[inline(never)]
pub(crate) fn append_pull(
    out: &mut Vec<u8>,
    ckpt: CkptId,
    reply: PullReply,
) -> Result<(), AllocError>
    ensures { OnOk result (out.new.items ≡ out.old.items ++ pull_line ckpt reply) }
{
    append_ckpt(out, ckpt)?;
    append_text(out, " pull ")?;
    append_pulled(out, reply)?;
    append_text(out, "\n")
}

/// How a pull was answered.
fn append_pulled(out: &mut Vec<u8>, reply: PullReply) -> Result<(), AllocError>
    ensures { OnOk result (out.new.items ≡ out.old.items ++ pulled_text reply) }
{
    match reply {
        PullReply::Ok(count) => append_counted(out, "OK ", count),
        PullReply::Held(call) => append_of_call(out, "HELD ", call),
        PullReply::Nothing => append_text(out, "NONE"),
    }
}

/// The line of a put.
#[inline(never)]
pub(crate) fn append_put(
    out: &mut Vec<u8>,
    ckpt: CkptId,
    node: NodeId,
    reply: PutReply,
) -> Result<(), AllocError>
    ensures { OnOk result (out.new.items ≡ out.old.items ++ put_line ckpt node reply) }
{
    append_ckpt(out, ckpt)?;
    append_text(out, " put ")?;
    append_node(out, node)?;
    append_text(out, " ")?;
    append_put_reply(out, reply)?;
    append_text(out, "\n")
}

/// How a put was answered.
fn append_put_reply(out: &mut Vec<u8>, reply: PutReply) -> Result<(), AllocError>
    ensures { OnOk result (out.new.items ≡ out.old.items ++ put_text reply) }
{
    match reply {
        PutReply::Ok(count) => append_counted(out, "OK ", count),
        PutReply::Nothing => append_text(out, "NONE"),
        PutReply::Stale(generation, present) => {
            append_counted(out, "STALE ", generation)?;
            append_spaced(out, present)
        }
        PutReply::Old(generation, count) => {
            append_counted(out, "OLD ", generation)?;
            append_spaced(out, count)
        }
    }
}

/// The line of a word that answers a line.
#[inline(never)]
pub(crate) fn append_word(
    out: &mut Vec<u8>,
    who: Who,
    line: LineWord,
    said: Said,
) -> Result<(), AllocError>
    ensures { OnOk result (out.new.items ≡ out.old.items ++ word_line who line said) }
{
    append_who(out, who)?;
    append_text(out, " ")?;
    append_text(out, line.word())?;
    append_text(out, " ")?;
    append_text(out, said.word())?;
    append_text(out, "\n")
}
