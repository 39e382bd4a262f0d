//! Labels that are compared: of reads, by what they gave.
use crate::rows::holds;
use ckpt_types::{ActorName, Answer, CallId, OpWord, Outcome, Pieces, ReadBuf};
use node_msgs::{Details, StepReply, Verb};
use run_labels::Label;
use same_labels::same_label;
use std::alloc::{AllocError, Global};
use std::process::Abort;

/// The label of a read that gave one piece.
fn read(alloc: Global, piece: &[u8]) -> Result<Label, AllocError> {
    let mut buf = ReadBuf::reserve(alloc, 1, 8)?;
    if piece.len() <= 8 {
        buf.push(piece);
    }
    Ok(Label::Stepped {
        call: CallId {
            actor: ActorName::Client(3),
            number: 7,
        },
        op: OpWord::Read,
        verb: Verb::Read,
        ckpt: Some(1),
        node: Some(2),
        reply: StepReply::Ok,
        end: Some(Outcome::Done(Answer::Pieces)),
        details: Details::Pieces(Pieces::from_buf(buf)),
    })
}

/// Whether one that gave this piece has the same label.
fn is_told_by(alloc: Global, piece: &[u8], label: &Label) -> Result<bool, AllocError> {
    let other = read(alloc, piece)?;
    Ok(same_label(&other, label))
}

#[test]
fn two_reads_have_one_label_where_they_gave_the_same(rt: HostRuntime) -> Result<(), AllocError> {
    let label = read(rt.alloc(), b"abcd")?;
    compare(&rt, rt.alloc(), &label)
}

fn compare(rt: &impl Abort, alloc: Global, label: &Label) -> Result<(), AllocError> {
    holds(rt, 1, is_told_by(alloc, b"abcd", label)?);
    holds(rt, 2, !is_told_by(alloc, b"abce", label)?);
    holds(rt, 3, !is_told_by(alloc, b"abc", label)?);
    holds(rt, 4, !same_label(&Label::Moved(1), label));
    Ok(())
}
