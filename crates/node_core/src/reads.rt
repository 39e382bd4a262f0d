//! What a replica tells: reads, a status, and iterations.
ghost use Rattle.std.specs.Prelude.{◌≡◌, ◌^◌, ◌<◌, ◌≤◌, ℕ, None, Some, IfOk, IfSome, IsOk, IsSome, IsSomeAnd, MatchOption, OnErr, length};
ghost use Rattle.ckpt_types.specs.declared.answers.Answer.TheVariants as answers;
ghost use Rattle.ckpt_types.specs.Reads.{read, status, chosen, given};
ghost use Rattle.section_iter.specs.Next.{kept_after};
ghost use Rattle.section_iter.specs.Room.{IsRoomFor};
ghost use Rattle.update_rules.specs.Told.{check_answer};
ghost use Rattle.cluster_record.specs.RecordState.{entry_of};
ghost use Rattle.node_msgs.specs.declared.replies.Reply.TheVariants as replies;
ghost use Rattle.node_msgs.specs.declared.details.Details.TheVariants as beside;
ghost use Rattle.node_core.specs.Behind.{section_in_place, with_told};
ghost use Rattle.node_core.specs.Details.{details_told, pieces_told, section_put};
ghost use Rattle.node_core.specs.Lending.{HasRoomToRead};
ghost use Rattle.cluster_record.specs.Places.{find_key};
ghost use Rattle.node_core.specs.Nodes.{replica_key};
ghost use Rattle.node_core.specs.Payloads.{elements_or, ids_or};
ghost use Rattle.node_core.specs.Seen.{entry_seen};
ghost use Rattle.node_core.specs.Serving.{done_or_refused, read_details, attributes_seen, next_reply, next_details};

use crate::lent::Lent;
use crate::replicas::find_at;
use crate::seen::attributes_seen;
use ckpt_types::{
    AisError, Answer, Apart, Choice, CkptId, Moment, ReadBuf, ReadElement, SectionDescriptor,
};
use cluster_record::Record;
use node_msgs::Reply;
use replica::Replica;
use section_iter::Iteration;
use section_store::Store;
use update_rules::Refused;

pub(crate) fn read_lent(replica: &Replica, seen: &Record, lent: &mut Lent) -> Reply
    requires { IsSomeAnd lent.old.vector (λ elements. IsSomeAnd lent.old.read (HasRoomToRead elements)) }
    ensures reply { result ≡ done_or_refused (replies.Done answers.Pieces) (read (elements_or lent.old.vector) seen.now.moment replica.now.sections) }
    ensures details { details_told result lent.new ≡ read_details (read (elements_or lent.old.vector) seen.now.moment replica.now.sections) }
    ensures lent { lent.new ≡ with_told result lent.new (record lent.old { vector = None }) }
{
    let Some(vector) = lent.vector.take() else {
        unreachable!()
    };
    read(replica.store(), vector.value().as_slice(), seen.now(), lent)
}

// Puts the pieces of a read into the empty buffer, or refuses it.
fn read(store: &Store, elements: &[ReadElement], now: Moment, lent: &mut Lent) -> Reply
    requires few { length elements.now < 2 ^ 32 }
    requires room { IsSomeAnd lent.old.read (HasRoomToRead elements.now) }
    ensures reply { result ≡ done_or_refused (replies.Done answers.Pieces) (read elements.now now store.now.sections) }
    ensures details { details_told result lent.new ≡ read_details (read elements.now now store.now.sections) }
    ensures lent { lent.new ≡ with_told result lent.new lent.old }
{
    if let Err(refused) = check_read(store, elements, now) {
        return Reply::Refused(refused.error, refused.index);
    }
    read_into(store, elements, now, &mut lent.read);
    Reply::Done(Answer::Pieces)
}

// Puts the pieces of a read that is not refused into the empty buffer that is lent.
fn read_into(store: &Store, elements: &[ReadElement], now: Moment, lent: &mut Option<ReadBuf>)
    requires readable { IsOk (read elements.now now store.now.sections) }
    requires room { IsSomeAnd lent.old (HasRoomToRead elements.now) }
    ensures { pieces_told lent.new ≡ read_details (read elements.now now store.now.sections) }
{
    let Some(read) = lent else { unreachable!() };
    store.read_into(elements, now, read);
}

fn check_read(store: &Store, elements: &[ReadElement], now: Moment) -> Result<(), Refused>
    requires { length elements.now < 2 ^ 32 }
    ensures { result ≡ check_answer (read elements.now now store.now.sections) }
{
    update_rules::check_read(store, elements, now)
}

/// The replica of a checkpoint puts the pieces of a read into the empty buffer, or refuses it.
#[inline(always)]
pub(crate) fn read_in(
    replicas: &[Replica],
    ckpt: CkptId,
    elements: &[ReadElement],
    now: Moment,
    out: &mut ReadBuf,
) -> Reply
    requires there { IsSome (find_key replica_key ckpt replicas.now) }
    requires few { length elements.now < 2 ^ 32 }
    requires room { HasRoomToRead elements.now out.old }
    ensures answer { IfSome (find_key replica_key ckpt replicas.now) (λ x. result ≡ done_or_refused (replies.Done answers.Pieces) (read elements.now now x.sections)) }
    ensures pieces { IfSome (find_key replica_key ckpt replicas.now) (λ x. IfOk (read elements.now now x.sections) (λ pieces. out.new.pieces ≡ pieces)) }
    ensures refused { IfSome (find_key replica_key ckpt replicas.now) (λ x. OnErr (read elements.now now x.sections) (out.new ≡ out.old)) }
{
    let Some(replica) = find_at(replicas, ckpt) else {
        unreachable!()
    };
    read_whole(replica.store(), elements, now, out)
}

fn read_whole(store: &Store, elements: &[ReadElement], now: Moment, out: &mut ReadBuf) -> Reply
    requires few { length elements.now < 2 ^ 32 }
    requires room { HasRoomToRead elements.now out.old }
    ensures answer { result ≡ done_or_refused (replies.Done answers.Pieces) (read elements.now now store.now.sections) }
    ensures pieces { IfOk (read elements.now now store.now.sections) (λ pieces. out.new.pieces ≡ pieces) }
    ensures refused { OnErr (read elements.now now store.now.sections) (out.new ≡ out.old) }
{
    if let Err(refused) = check_read(store, elements, now) {
        return Reply::Refused(refused.error, refused.index);
    }
    store.read_into(elements, now, out);
    Reply::Done(Answer::Pieces)
}

// The attributes are those of the record, where it has the checkpoint: the replica's retention is as old as it is.
pub(crate) fn status_lent(replica: &Replica, ckpt: CkptId, seen: &Record, lent: &mut Lent) -> Reply
    requires { IsSome lent.old.status }
    ensures reply { result ≡ replies.Done answers.Status }
    ensures details { (r : ℕ) → details_told result lent.new ≡ beside.Status (status (attributes_seen (entry_seen r (entry_of ckpt seen.now.entries)) replica.now.attributes) seen.now.moment replica.now.sections) }
    ensures lent { lent.new ≡ record lent.old { status = lent.new.status } }
{
    let Some(place) = &mut lent.status else {
        unreachable!()
    };
    let mut status = replica.store().descriptor(seen.now());
    status.attributes = attributes_seen(seen, ckpt, replica.store().attributes());
    place.put(status);
    Reply::Done(Answer::Status)
}

pub(crate) fn start_lent(replica: &Replica, choice: Choice, seen: &Record, lent: &mut Lent) -> Reply
    requires { IsSomeAnd lent.old.iteration (λ kept. IsRoomFor replica.now.attributes kept.room) }
    ensures reply { result ≡ replies.Done answers.Nothing }
    ensures iteration { MatchOption lent.old.iteration (lent.new.iteration ≡ None) (λ kept. lent.new.iteration ≡ Some (record kept { ids = chosen choice seen.now.moment replica.now.sections })) }
    ensures lent { lent.new ≡ record lent.old { iteration = lent.new.iteration } }
{
    let Some(iteration) = &mut lent.iteration else {
        unreachable!()
    };
    start(replica, iteration, choice, seen.now());
    Reply::Done(Answer::Nothing)
}

// Gives what is chosen now to an iteration with room for it.
fn start(replica: &Replica, iteration: &mut Iteration, choice: Choice, now: Moment)
    requires { IsRoomFor replica.now.attributes iteration.old.room }
    ensures { iteration.new ≡ record iteration.old { ids = chosen choice now replica.now.sections } }
{
    start_over(replica.store(), iteration, choice, now);
}

fn start_over(store: &Store, iteration: &mut Iteration, choice: Choice, now: Moment)
    requires { IsRoomFor store.now.attributes iteration.old.room }
    ensures { iteration.new ≡ record iteration.old { ids = chosen choice now store.now.sections } }
{
    // No more sections stand than were declared, with no longer identifiers.
    let declared = store.attributes().max_sections;
    prove!(declared <= iteration.room().ids);
    iteration.start(store, choice, now);
}

pub(crate) fn next_lent(replica: &Replica, seen: &Record, lent: &mut Lent) -> Reply
    requires iteration { IsSome lent.old.iteration }
    requires section { IsSome lent.old.section }
    ensures reply { result ≡ next_reply (given (ids_or lent.old.iteration) seen.now.moment replica.now.sections) }
    ensures details { details_told result lent.new ≡ next_details (given (ids_or lent.old.iteration) seen.now.moment replica.now.sections) }
    ensures iteration { MatchOption lent.old.iteration (lent.new.iteration ≡ None) (λ kept. lent.new.iteration ≡ Some (kept_after kept (given kept.ids seen.now.moment replica.now.sections))) }
    ensures lent { lent.new ≡ with_told result lent.new (record lent.old { iteration = lent.new.iteration }) }
{
    let Some(iteration) = &mut lent.iteration else {
        unreachable!()
    };
    let Some(place) = &mut lent.section else {
        unreachable!()
    };
    next(replica.store(), iteration, seen.now(), place)
}

// The next section of an iteration, which is told in the place for it.
fn next(
    store: &Store,
    iteration: &mut Iteration,
    now: Moment,
    place: &mut Apart<SectionDescriptor>,
) -> Reply
    ensures reply { result ≡ next_reply (given iteration.old.ids now store.now.sections) }
    ensures details { section_put result place.new ≡ next_details (given iteration.old.ids now store.now.sections) }
    ensures new { iteration.new ≡ kept_after iteration.old (given iteration.old.ids now store.now.sections) }
    ensures left { place.new ≡ section_in_place result place.new place.old }
{
    match iteration.next(store, now) {
        Err(_) => Reply::Refused(AisError::NoSections, 0),
        Ok(section) => {
            place.put(section);
            Reply::Done(Answer::Section)
        }
    }
}
