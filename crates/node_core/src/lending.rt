//! Whether what a request uses is lent.
ghost use Rattle.std.specs.Prelude.{◌≡◌, ◌≤◌, ◌^◌, [], IsSome, IsSomeAnd, MatchOption, Decides, length};
ghost use Rattle.ckpt_types.specs.Sections.{Fits};
ghost use Rattle.section_iter.specs.Room.{IsRoomFor};
ghost use Rattle.replica.specs.Replicas.{IsWrite};
ghost use Rattle.node_core.specs.Lending.{bytes_asked, id_length, HasRoomToRead, HasRoomForId, HasRoomToTell, HasRoomToCommit, HasLent};

use crate::keeping::keeps_to;
use crate::lent::Lent;
use ckpt_types::{CreationAttributes, GENERATED_ID_BYTES, NewId, ReadBuf, ReadElement, Update};
use node_msgs::Request;
use replica::Replica;
use section_iter::Iteration;
use stage_slot::Slot;

/// Whether what a request to a replica uses is lent.
pub(crate) fn has_lent(replica: &Replica, request: &Request, lent: &Lent) -> bool
    ensures { Decides result (HasLent request.now lent.now replica.now) }
{
    match request {
        Request::Stage(_, _, _) => lent.update.is_some(),
        Request::Commit(_, _) => has_room_to_commit(replica.slot(), &lent.read),
        Request::Apply(_, _) => has_told(lent),
        Request::Mark(_, _) => has_write(lent),
        Request::Read(_) => has_read(lent),
        Request::Status(_) => lent.status.is_some(),
        Request::Iterate(_, _, _) => has_iteration(replica, lent),
        Request::Next(_, _) => has_next(lent),
        Request::Pull(_, _) => has_room_to_pull(replica, lent),
        Request::Install(_, _) => has_snapshot(replica, lent),
        _ => true,
    }
}

// ---- an update in one step, and a weak write

fn has_told(lent: &Lent) -> bool
    ensures { Decides result (IsSomeAnd lent.now.update (λ update. HasRoomToTell update lent.now.read)) }
{
    match &lent.update {
        None => false,
        Some(update) => has_room_to_tell(update.value(), &lent.read),
    }
}

fn has_write(lent: &Lent) -> bool
    ensures { Decides result (IsSomeAnd lent.now.update IsWrite) }
{
    match &lent.update {
        None => false,
        Some(update) => is_write(update.value()),
    }
}

fn is_write(update: &Update) -> bool
    ensures { Decides result (IsWrite update.now) }
{
    match update {
        Update::Write(_) => true,
        _ => false,
    }
}

// ---- the identifier that an update tells

fn has_room_to_commit(slot: &Slot, read: &Option<ReadBuf>) -> bool
    ensures { Decides result (HasRoomToCommit slot.now read.now) }
{
    match slot.kept() {
        None => true,
        Some(staged) => has_room_to_tell(staged.update.value(), read),
    }
}

fn has_room_to_tell(update: &Update, read: &Option<ReadBuf>) -> bool
    ensures { Decides result (HasRoomToTell update.now read.now) }
{
    match update {
        Update::Create(new, _, _) => has_room_for_id(new, read),
        _ => true,
    }
}

fn has_room_for_id(new: &NewId, read: &Option<ReadBuf>) -> bool
    ensures { Decides result (IsSomeAnd read.now (HasRoomForId new.now)) }
{
    match read {
        None => false,
        Some(read) => has_room(read, 1, id_length(new)),
    }
}

fn id_length(new: &NewId) -> usize
    ensures { result ≡ id_length new.now }
{
    match new {
        NewId::Given(id) => id.as_slice().len(),
        NewId::Generated => GENERATED_ID_BYTES as usize,
    }
}

// Whether a buffer is empty and has room for so many pieces, with so many bytes in all.
fn has_room(read: &ReadBuf, pieces: usize, bytes: usize) -> bool
    ensures { Decides result ((read.now.pieces ≡ []) × (pieces ≤ read.now.spare_pieces) × (bytes ≤ read.now.spare_bytes)) }
{
    if read.len() != 0 {
        return false;
    }
    let (places, room) = read.spare();
    if places < pieces {
        return false;
    }
    bytes <= room
}

// ---- the elements and the buffer of a read

fn has_read(lent: &Lent) -> bool
    ensures { Decides result (IsSomeAnd lent.now.vector (λ elements. IsSomeAnd lent.now.read (HasRoomToRead elements))) }
{
    match &lent.vector {
        None => false,
        Some(vector) => has_room_to_read(vector.value().as_slice(), &lent.read),
    }
}

fn has_room_to_read(elements: &[ReadElement], read: &Option<ReadBuf>) -> bool
    ensures { Decides result (IsSomeAnd read.now (HasRoomToRead elements.now)) }
{
    match read {
        None => false,
        Some(read) => has_room_for(elements, read),
    }
}

fn has_room_for(elements: &[ReadElement], read: &ReadBuf) -> bool
    ensures { Decides result (HasRoomToRead elements.now read.now) }
{
    if !has_room(read, elements.len(), 0) {
        return false;
    }
    let room = read.spare().1;
    match bytes_asked(elements) {
        None => false,
        Some(bytes) => bytes <= room,
    }
}

/// How many bytes the elements of a read ask for at most; nothing where they are more than a buffer can have.
pub fn bytes_asked(elements: &[ReadElement]) -> Option<usize>
    ensures { MatchOption result (2 ^ 64 ≤ bytes_asked elements.now) (λ n. n ≡ bytes_asked elements.now) }
{
    let mut total: u64 = 0;
    for element in elements {
        let Some(more) = total.checked_add(element.len) else {
            return None;
        };
        total = more;
    }
    Some(total as usize)
}

// ---- iterations

fn has_iteration(replica: &Replica, lent: &Lent) -> bool
    ensures { Decides result (IsSomeAnd lent.now.iteration (λ kept. IsRoomFor replica.now.attributes kept.room)) }
{
    match &lent.iteration {
        None => false,
        Some(iteration) => is_room_for(replica.store().attributes(), iteration),
    }
}

fn is_room_for(attributes: &CreationAttributes, iteration: &Iteration) -> bool
    ensures { Decides result (IsRoomFor attributes.now iteration.now.room) }
{
    let room = iteration.room();
    if room.ids < attributes.max_sections {
        return false;
    }
    attributes.max_section_id_size <= room.id_size
}

fn has_next(lent: &Lent) -> bool
    ensures { Decides result (IsSome lent.now.iteration × IsSome lent.now.section) }
{
    if lent.iteration.is_none() {
        return false;
    }
    lent.section.is_some()
}

// ---- snapshots

/// Whether a snapshot is lent that has room for the sections of the replica.
pub(crate) fn has_room_to_pull(replica: &Replica, lent: &Lent) -> bool
    ensures { Decides result (IsSomeAnd lent.now.snap (λ s. Fits s.attributes replica.now.sections)) }
{
    match &lent.snap {
        None => false,
        Some(snap) => keeps_to(replica.store(), snap.attributes()),
    }
}

fn has_snapshot(replica: &Replica, lent: &Lent) -> bool
    ensures { Decides result (IsSomeAnd lent.now.snap (λ s. Fits replica.now.attributes s.sections)) }
{
    match &lent.snap {
        None => false,
        Some(snap) => keeps_to(snap, replica.store().attributes()),
    }
}
