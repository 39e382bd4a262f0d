//! A store where memory is there, and at it what is generic over sections: the checks, and an iteration.
use crate::rows::{holds, met};
use ckpt_types::{
    AisError, Bytes, Choice, CreationAttributes, Moment, NEVER, NewId, ReadBuf, ReadElement,
    SECTIONS_ANY, Sections, Update, WR_ALL_REPLICAS,
};
use section_iter::{Iteration, NoSections, Room};
use section_store::Store;
use std::alloc::{AllocError, Global};
use std::process::Abort;
use update_rules::{check, check_read};

/// Two sections of at most 4 bytes.
const TWO: CreationAttributes = CreationAttributes {
    creation_flags: WR_ALL_REPLICAS,
    checkpoint_size: 8,
    retention_duration: 0,
    max_sections: 2,
    max_section_size: 4,
    max_section_id_size: 8,
};

/// The identifier that the service makes of a number.
fn numbered(number: u8) -> [u8; 8] {
    [0, 0, 0, 0, 0, 0, 0, number]
}

/// Makes the update, where it is not refused: else the error.
fn make(store: &mut Store, update: &Update, now: Moment) -> Result<(), AisError> {
    let attrs = store.descriptor(now).attributes;
    if let Err(refused) = check(&attrs, &*store, update, now) {
        return Err(refused.error);
    }
    store.apply(update, now);
    Ok(())
}

/// Whether the creation of a section, under an identifier that the service makes, ends so.
fn creates(
    store: &mut Store,
    alloc: Global,
    expiration: Moment,
    bytes: &[u8],
    now: Moment,
    end: Result<(), AisError>,
) -> Result<bool, AllocError> {
    let bytes = Bytes::from_slice(alloc, bytes)?;
    let update = Update::Create(NewId::Generated, expiration, bytes);
    Ok(make(store, &update, now) == end)
}

/// Whether one piece is in the buffer, of these bytes.
fn has(out: &ReadBuf, bytes: &[u8]) -> bool {
    if out.len() != 1 {
        return false;
    }
    out.piece(0) == bytes
}

/// Whether a read of the element gives these bytes.
fn gives_bytes(
    store: &Store,
    alloc: Global,
    elements: &[ReadElement; 1],
    bytes: &[u8],
    now: Moment,
) -> Result<bool, AllocError> {
    if elements[0].len > 8 || check_read(store, elements, now).is_err() {
        return Ok(false);
    }
    let mut out = ReadBuf::reserve(alloc, 1, 8)?;
    store.read_into(elements, now, &mut out);
    Ok(has(&out, bytes))
}

/// The element of a read of the last two bytes of the second section.
fn last_two(alloc: Global) -> Result<[ReadElement; 1], AllocError> {
    let id = Bytes::from_slice(alloc, &numbered(2))?;
    Ok([ReadElement {
        id,
        offset: 2,
        len: 2,
    }])
}

/// Whether a read of these two bytes gives that.
fn gives(store: &Store, alloc: Global, bytes: &[u8], now: Moment) -> Result<bool, AllocError> {
    let elements = last_two(alloc)?;
    gives_bytes(store, alloc, &elements, bytes, now)
}

/// Whether it is refused.
fn refuses(store: &Store, alloc: Global, now: Moment) -> Result<bool, AllocError> {
    let elements = last_two(alloc)?;
    Ok(check_read(store, &elements, now).is_err())
}

/// Whether the store has two sections: the first of all, and one of these bytes.
fn has_two(store: &Store, bytes: &[u8]) -> bool {
    if store.len() != 2 {
        return false;
    }
    if store.at(0).bytes != b"abcd".as_slice() {
        return false;
    }
    let second = store.at(1);
    second.bytes == bytes && second.id.as_slice() == numbered(2).as_slice()
}

/// A third section takes the place of what has expired.
fn add_third(rt: &impl Abort, alloc: Global, store: &mut Store) {
    met(
        rt,
        5,
        creates(store, alloc, NEVER, b"ijkl", 9, Err(AisError::NoSpace)),
    );
    met(rt, 6, creates(store, alloc, NEVER, b"ijkl", 10, Ok(())));
    holds(rt, 7, has_two(store, b"ijkl"));
    met(rt, 8, gives(store, alloc, b"kl", 10));
}

/// In a copy it takes none, where what has expired is not read.
fn copy_stays(rt: &impl Abort, alloc: Global, copy: &Store) {
    holds(rt, 9, has_two(copy, b"efgh"));
    met(rt, 10, gives(copy, alloc, b"gh", 9));
    met(rt, 11, refuses(copy, alloc, 10));
}

fn go_apart(rt: &impl Abort, alloc: Global, store: &mut Store, copy: &Store) {
    add_third(rt, alloc, store);
    copy_stays(rt, alloc, copy);
}

fn makes_room(rt: &impl Abort, alloc: Global, store: &mut Store) -> Result<(), AllocError> {
    let copy = store.copy(alloc)?;
    go_apart(rt, alloc, store, &copy);
    Ok(())
}

/// Fills a store by two sections, of which the second expires.
fn fill(rt: &impl Abort, alloc: Global, store: &mut Store) {
    met(rt, 1, creates(store, alloc, NEVER, b"abcd", 6, Ok(())));
    met(rt, 2, creates(store, alloc, 10, b"efgh", 6, Ok(())));
}

/// Whether a status tells so many sections and bytes.
fn counts(store: &Store, now: Moment, sections: u32, bytes: u64) -> bool {
    let status = store.descriptor(now);
    status.number_of_sections == sections && status.memory_used == bytes
}

/// A store is full, and has room once a section has expired.
fn expires(rt: &impl Abort, alloc: Global, store: &mut Store) -> Result<(), AllocError> {
    fill(rt, alloc, store);
    holds(rt, 3, counts(store, 9, 2, 8));
    holds(rt, 4, counts(store, 10, 1, 4));
    makes_room(rt, alloc, store)
}

#[test]
fn what_has_expired_makes_room_in_a_full_store(rt: HostRuntime) -> Result<(), AllocError> {
    let mut store = Store::reserve(rt.alloc(), &TWO, 5)?;
    expires(&rt, rt.alloc(), &mut store)
}

/// Begins an iteration over all sections of a store. Whether it has room for what that declares.
fn begins(it: &mut Iteration, store: &Store, now: Moment) -> bool {
    let attrs = store.attributes();
    let room = it.room();
    if room.ids < attrs.max_sections || room.id_size < attrs.max_section_id_size {
        return false;
    }
    let any = Choice {
        chosen: SECTIONS_ANY,
        time: 0,
    };
    it.start(store, any, now);
    true
}

/// Whether an iteration gives the section of that number next.
fn gives_next(it: &mut Iteration, store: &Store, number: u8, now: Moment) -> bool {
    match it.next(store, now) {
        Ok(section) => section.id.as_slice() == numbered(number).as_slice() && section.size == 4,
        Err(NoSections) => false,
    }
}

/// Whether an iteration gives none any more.
fn is_at_end(it: &mut Iteration, store: &Store, now: Moment) -> bool {
    it.next(store, now).is_err()
}

/// An iteration that has given the first of two sections goes on, and a copy of it too.
fn both_go_on(rt: &impl Abort, it: &mut Iteration, again: &mut Iteration, store: &Store) {
    holds(rt, 6, gives_next(it, store, 2, 9));
    holds(rt, 7, is_at_end(it, store, 9));
    holds(rt, 8, is_at_end(again, store, 10));
    holds(rt, 9, gives_next(again, store, 2, 9));
}

/// An iteration has room for two sections, and gives them.
fn goes_on(
    rt: &impl Abort,
    alloc: Global,
    it: &mut Iteration,
    store: &Store,
) -> Result<(), AllocError> {
    holds(rt, 3, it.room() == Room { ids: 2, id_size: 8 });
    holds(rt, 4, begins(it, store, 9));
    holds(rt, 5, gives_next(it, store, 1, 9));
    let mut again = it.copy(alloc)?;
    both_go_on(rt, it, &mut again, store);
    Ok(())
}

/// A store of two sections is gone through.
fn iterates(rt: &impl Abort, alloc: Global, store: &mut Store) -> Result<(), AllocError> {
    fill(rt, alloc, store);
    let mut it = Iteration::reserve(alloc, &TWO)?;
    goes_on(rt, alloc, &mut it, store)
}

#[test]
fn an_iteration_gives_what_it_has_chosen(rt: HostRuntime) -> Result<(), AllocError> {
    let mut store = Store::reserve(rt.alloc(), &TWO, 5)?;
    iterates(&rt, rt.alloc(), &mut store)
}
