//! What the label of a step tells beside the end of its call.
ghost use Rattle.std.specs.Prelude.{◌≡◌};
ghost use Rattle.ckpt_machine.specs.Due.{ended_details};
ghost use Rattle.node_core.specs.Details.{details_told, pieces_told, section_told, status_told};
ghost use Rattle.client_calls.specs.ReadTold.{read_told};

use ckpt_types::{
    Answer, Apart, CheckpointDescriptor, Outcome, Pieces, ReadBuf, SectionDescriptor,
};
use node_core::Lent;
use node_msgs::{Details, Reply};

/// What the label of a step tells beside its end, where it ended its call: what came with the reply. It takes no
/// memory.
pub fn told_details(end: &Option<Outcome>, reply: &Reply, lent: Lent) -> Details
    ensures { result ≡ ended_details end.now (details_told reply.now lent) }
{
    let mut lent = lent;
    take_details(end, reply, &mut lent)
}

// The same, taken out of what was lent.
#[inline(always)]
fn take_details(end: &Option<Outcome>, reply: &Reply, lent: &mut Lent) -> Details
    ensures { result ≡ ended_details end.now (details_told reply.now lent.old) }
{
    match (end, reply) {
        (Some(_), Reply::Done(Answer::Pieces | Answer::Created)) => pieces_in(lent.read.take()),
        (Some(_), Reply::Done(Answer::Status)) => status_in(lent.status.take()),
        (Some(_), Reply::Done(Answer::Section)) => section_in(lent.section.take()),
        _ => Details::Nothing,
    }
}

fn pieces_in(read: Option<ReadBuf>) -> Details
    ensures { result ≡ pieces_told read }
{
    match read {
        None => Details::Nothing,
        Some(read) => Details::Pieces(Pieces::from_buf(read)),
    }
}

fn status_in(status: Option<Apart<CheckpointDescriptor>>) -> Details
    ensures { result ≡ status_told status }
{
    match status {
        None => Details::Nothing,
        Some(status) => Details::Status(status),
    }
}

fn section_in(section: Option<Apart<SectionDescriptor>>) -> Details
    ensures { result ≡ section_told section }
{
    match section {
        None => Details::Nothing,
        Some(section) => Details::Section(section),
    }
}

/// What the label of a read tells beside its end, where it ended its call and was done: its pieces.
#[inline(always)]
pub fn told_read(end: &Option<Outcome>, reply: &Reply, read: ReadBuf) -> Details
    ensures { result ≡ ended_details end.now (read_told reply.now read) }
{
    match (end, reply) {
        (Some(_), Reply::Done(Answer::Pieces)) => Details::Pieces(Pieces::from_buf(read)),
        _ => Details::Nothing,
    }
}
