//! What the call of a client lends to a request, and what comes back of it.
ghost use Rattle.std.specs.Prelude.{◌≡◌, ◌^◌, ◌<◌, [], length, None, IfOk, IsSome, MatchOption};
ghost use Rattle.ckpt_types.specs.Asks.{update_of, elements_of};
ghost use Rattle.ckpt_types.specs.declared.update.Update.TheVariants as updates;
ghost use Rattle.node_core.specs.Lending.{bytes_asked, nothing_lent, HasRoomToCommit, HasRoomToTell};
ghost use Rattle.client_calls.specs.Lending.{IsLentBy, IsLentRead, IsLentUpdate};
ghost use Rattle.client_calls.specs.UpdateSteps.{is_creation};

use crate::hand_rooms::DECLARES_NOTHING;
use ckpt_types::{
    Apart, CheckpointDescriptor, GENERATED_ID_BYTES, NewId, Op, ReadBuf, ReadElement, ReadVector,
    SectionDescriptor, SectionId, SectionState, SharedReads, SharedUpdate, Update,
};
use node_core::{Lent, bytes_asked};
use node_msgs::Request;
use stage_slot::Slot;
use std::alloc::{AllocError, Global};

/// What a place for a status has before the status is told.
const NO_STATUS: CheckpointDescriptor = CheckpointDescriptor {
    attributes: DECLARES_NOTHING,
    number_of_sections: 0,
    memory_used: 0,
};

/// What a call of this operation lends to a request, an iteration aside: a share of its update, with a buffer that has
/// room for the identifier of a new section where it is made at once, a share of its elements with a buffer that has
/// room for what they may give, or a place for a status or a section. `commit_lent` tells what a commit wants.
pub fn lent_by(alloc: Global, op: &Op, request: &Request) -> Result<Lent, AllocError>
    ensures lent { IfOk result (IsLentBy op.now request.now) }
    ensures iteration { IfOk result (λ lent. lent.iteration ≡ None) }
{
    match request {
        Request::Stage(_, _, _) | Request::Mark(_, _) => {
            let update = share_update(alloc, op)?;
            Ok(lent_of(None, None, Some(update)))
        }
        Request::Apply(_, _) => apply_lent(alloc, op),
        Request::Read(_) => read_lent(alloc, op),
        Request::Status(_) => status_lent(alloc),
        Request::Next(_, _) => section_lent(alloc),
        _ => Ok(Lent::nothing()),
    }
}

/// What the commit of a slot wants: room for the identifier of the section that its update makes, if it makes one. It is
/// the update of the slot and not that of the call, which commits what another has staged where it has claimed that.
pub fn commit_lent(alloc: Global, slot: &Slot) -> Result<Lent, AllocError>
    ensures room { IfOk result (λ lent. HasRoomToCommit slot.now lent.read) }
    ensures iteration { IfOk result (λ lent. lent.iteration ≡ None) }
{
    let Some(staged) = slot.kept() else {
        return Ok(Lent::nothing());
    };
    let read = room_for_id(alloc, staged.update.value())?;
    Ok(lent_of(read, None, None))
}

// A buffer, the elements of a read, and an update are lent, those that there are, and nothing else.
pub(crate) fn lent_of(
    read: Option<ReadBuf>,
    vector: Option<SharedReads>,
    update: Option<SharedUpdate>,
) -> Lent
    ensures { result ≡ record nothing_lent { read = read; vector = vector; update = update } }
{
    Lent {
        read,
        vector,
        update,
        iteration: None,
        snap: None,
        status: None,
        section: None,
    }
}

// What an update in one step wants: room for the identifier that it tells, and a share of it.
fn apply_lent(alloc: Global, op: &Op) -> Result<Lent, AllocError>
    ensures lent { IfOk result (IsLentUpdate op.now) }
    ensures iteration { IfOk result (λ lent. lent.iteration ≡ None) }
{
    let update = share_update(alloc, op)?;
    let read = room_for_id(alloc, update.value())?;
    Ok(lent_of(read, None, Some(update)))
}

// A place for a status.
fn status_lent(alloc: Global) -> Result<Lent, AllocError>
    ensures lent { IfOk result (λ lent. IsSome lent.status) }
    ensures iteration { IfOk result (λ lent. lent.iteration ≡ None) }
{
    let status = Apart::new(alloc, NO_STATUS)?;
    Ok(Lent {
        read: None,
        vector: None,
        update: None,
        iteration: None,
        snap: None,
        status: Some(status),
        section: None,
    })
}

// A place for a section.
fn section_lent(alloc: Global) -> Result<Lent, AllocError>
    ensures lent { IfOk result (λ lent. IsSome lent.section) }
    ensures iteration { IfOk result (λ lent. lent.iteration ≡ None) }
{
    let section = Apart::new(alloc, no_section())?;
    Ok(Lent {
        read: None,
        vector: None,
        update: None,
        iteration: None,
        snap: None,
        status: None,
        section: Some(section),
    })
}

// Room for the identifier that an update tells, if it makes a section.
fn room_for_id(alloc: Global, update: &Update) -> Result<Option<ReadBuf>, AllocError>
    ensures { IfOk result (HasRoomToTell update.now) }
{
    match update {
        Update::Create(NewId::Given(id), _, _) => {
            Ok(Some(ReadBuf::reserve(alloc, 1, id.as_slice().len())?))
        }
        Update::Create(NewId::Generated, _, _) => {
            Ok(Some(ReadBuf::reserve(alloc, 1, GENERATED_ID_BYTES as usize)?))
        }
        _ => Ok(None),
    }
}

// The update that an operation asks for, if it asks for one.
fn update_in(op: &Op) -> Option<&Update>
    ensures { MatchOption result (update_of op.now ≡ updates.Nothing) (λ update. update_of op.now ≡ update.now) }
{
    match op {
        Op::Create(_, update)
        | Op::Delete(_, update)
        | Op::Expire(_, update)
        | Op::Write(_, update)
        | Op::Over(_, update) => Some(update.value()),
        _ => None,
    }
}

/// Whether an operation asks for a new section.
#[inline(always)]
pub fn creates(op: &Op) -> bool
    ensures { result ≡ is_creation (update_of op.now) }
{
    match update_in(op) {
        Some(Update::Create(_, _, _)) => true,
        _ => false,
    }
}

// What a read wants: a share of its elements, and a buffer that has room for what they may give.
fn read_lent(alloc: Global, op: &Op) -> Result<Lent, AllocError>
    ensures lent { IfOk result (IsLentRead op.now) }
    ensures iteration { IfOk result (λ lent. lent.iteration ≡ None) }
{
    let vector = share_elements(alloc, op)?;
    let read = reserve_for(alloc, vector.value().as_slice())?;
    Ok(lent_of(Some(read), Some(vector), None))
}

// What a place for a section has before one is told.
fn no_section() -> SectionDescriptor {
    SectionDescriptor {
        id: SectionId::default(),
        expiration: 0,
        size: 0,
        state: SectionState::Valid,
        last_update: 0,
    }
}

/// An empty buffer with room for what the elements of a read ask for.
pub fn reserve_for(alloc: Global, elements: &[ReadElement]) -> Result<ReadBuf, AllocError>
    ensures { IfOk result (λ read. read ≡ record { pieces = []; spare_pieces = length elements.now; spare_bytes = bytes_asked elements.now }) }
{
    let Some(bytes) = bytes_asked(elements) else {
        return Err(AllocError);
    };
    ReadBuf::reserve(alloc, elements.len(), bytes)
}

/// A share of the update that an operation asks for.
#[inline(always)]
pub fn share_update(alloc: Global, op: &Op) -> Result<SharedUpdate, AllocError>
    ensures { IfOk result (λ update. update ≡ update_of op.now) }
{
    match op {
        Op::Create(_, update)
        | Op::Delete(_, update)
        | Op::Expire(_, update)
        | Op::Write(_, update)
        | Op::Over(_, update) => update.share(),
        _ => SharedUpdate::new(alloc, Update::Nothing),
    }
}

/// The elements of the read that an operation asks for.
#[inline(always)]
pub fn elements_in(op: &Op) -> &[ReadElement]
    ensures is { result.now ≡ elements_of op.now }
    ensures few { length result.now < 2 ^ 32 }
{
    match op {
        Op::Read(_, elements) => elements.value().as_slice(),
        _ => &[],
    }
}

fn share_elements(alloc: Global, op: &Op) -> Result<SharedReads, AllocError>
    ensures { IfOk result (λ elements. elements ≡ elements_of op.now) }
{
    match op {
        Op::Read(_, elements) => elements.share(),
        _ => SharedReads::new(alloc, ReadVector::from_vec(Vec::new(alloc))),
    }
}
