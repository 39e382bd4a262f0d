//! What a replica makes of an update: stages, claims, commits and withdrawals, and updates in one step.
ghost use Rattle.std.specs.Prelude.{◌≡◌, ◌-◌, ◌^◌, ◌<◌, ◌≤◌, [], None, Some, IsSome, IsSomeAnd, length};
ghost use Rattle.ckpt_types.specs.declared.answers.Answer.TheVariants as answers;
ghost use Rattle.ckpt_types.specs.declared.update.NewId.TheVariants.{Given};
ghost use Rattle.node_msgs.specs.declared.replies.Reply.TheVariants as replies;
ghost use Rattle.stage_slot.specs.Slots.{IsOwnedBy};
ghost use Rattle.replica.specs.Replicas.{outcome_on, staged, committed, applied};
ghost use Rattle.node_core.specs.Behind.{with_told};
ghost use Rattle.node_core.specs.Details.{details_told, pieces_told};
ghost use Rattle.node_core.specs.Fitting.{TakesUpdate};
ghost use Rattle.node_core.specs.Lending.{Creates, HasRoomForId, HasRoomToTell, HasRoomToCommit};
ghost use Rattle.node_core.specs.Payloads.{update_or};
ghost use Rattle.node_core.specs.Serving.{stage_reply, claim_reply, claimed_by, update_answer, commit_answer, id_told, told_id, slot_id, apply_reply, applied_id};
ghost use Rattle.node_core.specs.StageReplies.{reply_refused, reply_told};

use crate::lent::Lent;
use ckpt_types::{Answer, CallId, Moment, NewId, ReadBuf, Update};
use node_msgs::Reply;
use replica::{Replica, StageRefused};
use section_store::Store;
use stage_slot::{Claimed, Slot};

/// Stages the update that is lent.
pub(crate) fn stage_lent(
    replica: &mut Replica,
    call: CallId,
    moment: Moment,
    lent: &mut Lent,
) -> Reply
    requires takes { TakesUpdate replica.old }
    requires lent { IsSome lent.old.update }
    ensures reply { result ≡ stage_reply (outcome_on replica.old (update_or lent.old.update) moment) replica.old.slot }
    ensures new { replica.new ≡ staged call (update_or lent.old.update) moment replica.old }
    ensures lent { lent.new ≡ record lent.old { update = None } }
{
    let Some(update) = lent.update.take() else {
        unreachable!()
    };
    reply_told(Answer::Nothing, replica.stage(call, update, moment))
}

/// Whether an update is staged, applied or begun, as a reply tells it.
pub(crate) fn reply_told(answer: Answer, told: Result<(), StageRefused>) -> Reply
    ensures { result ≡ reply_told answer told }
{
    match told {
        Ok(()) => Reply::Done(answer),
        Err(refused) => reply_refused(refused),
    }
}

/// Why an update is not staged, applied or begun, as a reply tells it.
pub fn reply_refused(refused: StageRefused) -> Reply
    ensures { result ≡ reply_refused refused }
{
    match refused {
        StageRefused::Held(holder) => Reply::Held(holder),
        StageRefused::Rules(refused) => Reply::Refused(refused.error, refused.index),
    }
}

/// Makes the update that is lent at once. A creation tells the identifier of its section, which is made over the
/// sections before it.
pub(crate) fn apply_lent(replica: &mut Replica, moment: Moment, lent: &mut Lent) -> Reply
    requires room { replica.old.count < 2 ^ 64 - 1 }
    requires free { replica.old.slot ≡ None }
    requires lent { IsSomeAnd lent.old.update (λ update. HasRoomToTell update lent.old.read) }
    ensures reply { result ≡ apply_reply (update_or lent.old.update) (outcome_on replica.old (update_or lent.old.update) moment) replica.old.marks }
    ensures new { replica.new ≡ applied (update_or lent.old.update) moment replica.old }
    ensures details { details_told result lent.new ≡ applied_id replica.old.marks (outcome_on replica.old (update_or lent.old.update) moment) (told_id (update_or lent.old.update) moment replica.old.sections) }
    ensures lent { lent.new ≡ with_told result lent.new (record lent.old { update = None }) }
{
    let Some(update) = lent.update.take() else {
        unreachable!()
    };
    apply(replica, update.value(), moment, lent)
}

fn apply(replica: &mut Replica, update: &Update, moment: Moment, lent: &mut Lent) -> Reply
    requires room { replica.old.count < 2 ^ 64 - 1 }
    requires free { replica.old.slot ≡ None }
    requires lent { HasRoomToTell update.now lent.old.read }
    ensures reply { result ≡ apply_reply update.now (outcome_on replica.old update.now moment) replica.old.marks }
    ensures new { replica.new ≡ applied update.now moment replica.old }
    ensures details { details_told result lent.new ≡ applied_id replica.old.marks (outcome_on replica.old update.now moment) (told_id update.now moment replica.old.sections) }
    ensures lent { lent.new ≡ with_told result lent.new lent.old }
{
    match update {
        Update::Create(new, _, _) => create(replica, update, new, moment, lent),
        _ => reply_told(Answer::Nothing, replica.apply_now(update, moment)),
    }
}

// A creation is made at once. Where it is done, it tells the identifier of its section.
fn create(
    replica: &mut Replica,
    update: &Update,
    new: &NewId,
    moment: Moment,
    lent: &mut Lent,
) -> Reply
    requires creation { Creates new.now update.now }
    requires room { replica.old.count < 2 ^ 64 - 1 }
    requires free { replica.old.slot ≡ None }
    requires lent { IsSomeAnd lent.old.read (HasRoomForId new.now) }
    ensures reply { result ≡ apply_reply update.now (outcome_on replica.old update.now moment) replica.old.marks }
    ensures new { replica.new ≡ applied update.now moment replica.old }
    ensures details { details_told result lent.new ≡ applied_id replica.old.marks (outcome_on replica.old update.now moment) (told_id update.now moment replica.old.sections) }
    ensures lent { lent.new ≡ with_told result lent.new lent.old }
{
    match new {
        NewId::Given(id) => create_named(replica, update, id.as_slice(), moment, lent),
        NewId::Generated => {
            let id = replica.store().generated(moment);
            create_named(replica, update, id.as_slice(), moment, lent)
        }
    }
}

// A creation of a section whose identifier is known.
fn create_named(
    replica: &mut Replica,
    update: &Update,
    id: &[u8],
    moment: Moment,
    lent: &mut Lent,
) -> Reply
    requires creation { update_answer update.now ≡ answers.Created }
    requires id { told_id update.now moment replica.old.sections ≡ id_told (Some id.now) }
    requires room { replica.old.count < 2 ^ 64 - 1 }
    requires free { replica.old.slot ≡ None }
    requires lent { IsSomeAnd lent.old.read (HasRoomForId (Given id.now)) }
    ensures reply { result ≡ apply_reply update.now (outcome_on replica.old update.now moment) replica.old.marks }
    ensures new { replica.new ≡ applied update.now moment replica.old }
    ensures details { details_told result lent.new ≡ applied_id replica.old.marks (outcome_on replica.old update.now moment) (told_id update.now moment replica.old.sections) }
    ensures lent { lent.new ≡ with_told result lent.new lent.old }
{
    match replica.apply_now(update, moment) {
        Ok(()) => {
            tell(id, &mut lent.read);
            Reply::Done(Answer::Created)
        }
        Err(refused) => reply_refused(refused),
    }
}

pub(crate) fn claim(replica: &mut Replica, call: CallId, owner: CallId) -> Reply
    ensures reply { result ≡ claim_reply call owner replica.old.count replica.old.slot }
    ensures new { replica.new ≡ record replica.old { slot = claimed_by call owner replica.old.slot } }
{
    let count = replica.count();
    match replica.claim(call, owner) {
        Ok(Claimed::Slot(count)) => Reply::Claimed(count),
        Ok(Claimed::Free) => Reply::Free(count),
        Err(held) => Reply::Held(held.by),
    }
}

// What the commit of a slot answers.
fn commit_answer(slot: &Slot) -> Answer
    ensures { result ≡ commit_answer slot.now }
{
    match slot.kept() {
        None => Answer::Nothing,
        Some(staged) => update_answer(staged.update.value()),
    }
}

// What an update that is done answers.
fn update_answer(update: &Update) -> Answer
    ensures { result ≡ update_answer update.now }
{
    match update {
        Update::Create(_, _, _) => Answer::Created,
        _ => Answer::Nothing,
    }
}

// A creation tells the identifier of its section, which is made over the sections before it.
pub(crate) fn commit_lent(replica: &mut Replica, call: CallId, lent: &mut Lent) -> Reply
    requires own { IsOwnedBy call replica.old.slot }
    requires lent { HasRoomToCommit replica.old.slot lent.old.read }
    ensures reply { result ≡ replies.Done (commit_answer replica.old.slot) }
    ensures new { replica.new ≡ committed replica.old replica.old.slot }
    ensures details { details_told (replies.Done (commit_answer replica.old.slot)) lent.new ≡ slot_id replica.old.sections replica.old.slot }
    ensures lent { lent.new ≡ with_told result lent.new lent.old }
{
    tell_slot(replica, lent);
    let answer = commit_answer(replica.slot());
    replica.commit(call);
    Reply::Done(answer)
}

fn tell_slot(replica: &Replica, lent: &mut Lent)
    requires { HasRoomToCommit replica.now.slot lent.old.read }
    ensures details { details_told (replies.Done (commit_answer replica.now.slot)) lent.new ≡ slot_id replica.now.sections replica.now.slot }
    ensures lent { lent.new ≡ with_told (replies.Done (commit_answer replica.now.slot)) lent.new lent.old }
{
    if let Some(staged) = replica.slot().kept() {
        tell_id(replica.store(), staged.update.value(), staged.moment, lent);
    }
}

// A creation that is staged puts the identifier of its section into the empty buffer.
fn tell_id(store: &Store, update: &Update, moment: Moment, lent: &mut Lent)
    requires { HasRoomToTell update.now lent.old.read }
    ensures details { details_told (replies.Done (update_answer update.now)) lent.new ≡ told_id update.now moment store.now.sections }
    ensures lent { lent.new ≡ with_told (replies.Done (update_answer update.now)) lent.new lent.old }
{
    match update {
        Update::Create(NewId::Given(id), _, _) => tell(id.as_slice(), &mut lent.read),
        Update::Create(NewId::Generated, _, _) => {
            tell(store.generated(moment).as_slice(), &mut lent.read);
        }
        _ => {}
    }
}

// Puts the identifier of a new section into the empty buffer that is lent.
fn tell(id: &[u8], lent: &mut Option<ReadBuf>)
    requires { IsSomeAnd lent.old (HasRoomForId (Given id.now)) }
    ensures { pieces_told lent.new ≡ id_told (Some id.now) }
{
    let Some(read) = lent else { unreachable!() };
    read.push(id);
}

pub(crate) fn withdraw(replica: &mut Replica, call: CallId) -> Reply
    requires { IsOwnedBy call replica.old.slot }
    ensures reply { result ≡ replies.Done answers.Nothing }
    ensures new { replica.new ≡ record replica.old { slot = None } }
{
    replica.withdraw(call);
    Reply::Done(Answer::Nothing)
}
