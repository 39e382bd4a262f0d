//! What a call needs is made where memory is there, for each kind of operation, and lent while it lasts.
use crate::rows::met;
use ckpt_types::{
    ActorName, Bytes, CallId, Op, ReadElement, ReadVector, SharedReads, SharedUpdate, Update,
};
use node_core::Lent;
use node_msgs::Request;
use shared_nodes::{Kept, Work};
use std::alloc::{AllocError, Global};

/// The call whose steps are made.
const CALL: CallId = CallId {
    actor: ActorName::Client(0),
    number: 1,
};

/// What this operation needs is made, and it is of this operation.
fn is_made(alloc: Global, op: &Op, place: u8) -> Result<bool, AllocError> {
    let work = Work::of(alloc, op)?;
    Ok(is_at(work.op(), place))
}

fn is_at(op: &Op, at: u8) -> bool {
    match op {
        Op::Status(place) | Op::Next(place) | Op::Close(place) => *place == at,
        Op::Delete(place, _) => *place == at,
        _ => false,
    }
}

#[test]
fn what_a_call_needs_is_made(rt: HostRuntime) {
    met(&rt, 1, is_made(rt.alloc(), &Op::Status(3), 3));
    met(&rt, 2, is_made(rt.alloc(), &Op::Next(4), 4));
    met(&rt, 3, is_made(rt.alloc(), &Op::Close(5), 5));
}

#[test]
fn what_an_update_needs_is_made(rt: HostRuntime) -> Result<(), AllocError> {
    let update = SharedUpdate::new(rt.alloc(), Update::Delete(Bytes::default()))?;
    met(&rt, 1, is_made(rt.alloc(), &Op::Delete(6, update), 6));
    Ok(())
}

/// Whether a share of an update is lent, and one is kept.
fn has_update(lent: &Lent, kept: &Kept) -> bool {
    lent.update.is_some() && lent.read.is_none() && matches!(kept, Kept::Update(_))
}

/// Whether a buffer alone is lent, and nothing is kept.
fn has_buffer(lent: &Lent, kept: &Kept) -> bool {
    lent.read.is_some() && lent.update.is_none() && matches!(kept, Kept::Nothing)
}

/// Whether the elements of a read are lent with a buffer, and are kept.
fn has_elements(lent: &Lent, kept: &Kept) -> bool {
    lent.vector.is_some() && lent.read.is_some() && matches!(kept, Kept::Elements(_))
}

/// How many of so many stages a share of the update is lent to.
fn stages_lent(work: &mut Work, stages: u32) -> u32 {
    let mut lent_to = 0_u32;
    for _n in 0..stages {
        let (lent, kept) = work.lend(&Request::Stage(CALL, 1, 0));
        if has_update(&lent, &kept) {
            lent_to = lent_to.saturating_add(1);
        }
    }
    lent_to
}

/// How many of so many commits a buffer is lent to.
fn commits_lent(work: &mut Work, commits: u32) -> u32 {
    let mut lent_to = 0_u32;
    for _n in 0..commits {
        let (lent, kept) = work.lend(&Request::Commit(CALL, 1));
        if has_buffer(&lent, &kept) {
            lent_to = lent_to.saturating_add(1);
        }
    }
    lent_to
}

/// What an update needs is lent to 512 stages and 16 commits, and to a read nothing.
fn update_lends(alloc: Global, op: &Op) -> Result<bool, AllocError> {
    let mut work = Work::of(alloc, op)?;
    let (lent, kept) = work.lend(&Request::Read(1));
    let stages = stages_lent(&mut work, 520);
    let commits = commits_lent(&mut work, 20);
    Ok(!has_elements(&lent, &kept) && stages == 512 && commits == 16)
}

#[test]
fn an_update_is_lent_to_so_many_steps(rt: HostRuntime) -> Result<(), AllocError> {
    let update = SharedUpdate::new(rt.alloc(), Update::Delete(Bytes::default()))?;
    met(&rt, 1, update_lends(rt.alloc(), &Op::Delete(6, update)));
    Ok(())
}

/// What a read of one element needs is lent to one read, and to a commit nothing.
fn read_lends(alloc: Global, op: &Op) -> Result<bool, AllocError> {
    let mut work = Work::of(alloc, op)?;
    let commits = commits_lent(&mut work, 1);
    let (lent, kept) = work.lend(&Request::Read(1));
    let (again, none) = work.lend(&Request::Read(1));
    Ok(commits == 0 && has_elements(&lent, &kept) && !has_elements(&again, &none))
}

/// A read of one element.
fn read_of_one(alloc: Global) -> Result<Op, AllocError> {
    let element = ReadElement {
        id: Bytes::default(),
        offset: 0,
        len: 8,
    };
    let mut elements = Vec::with_capacity(alloc, 1)?;
    elements.push_reserved(element);
    let elements = SharedReads::new(alloc, ReadVector::from_vec(elements))?;
    Ok(Op::Read(2, elements))
}

#[test]
fn a_read_is_lent_to_one_step(rt: HostRuntime) -> Result<(), AllocError> {
    let op = read_of_one(rt.alloc())?;
    met(&rt, 1, read_lends(rt.alloc(), &op));
    Ok(())
}

/// Whether the places for a status and for a section are lent where the operation wants them, once.
fn place_lends(alloc: Global, op: &Op, status: bool, section: bool) -> Result<bool, AllocError> {
    let mut work = Work::of(alloc, op)?;
    let (first, _kept) = work.lend(&Request::Status(1));
    let (second, _none) = work.lend(&Request::Next(CALL, 1));
    let (again, _last) = work.lend(&Request::Status(1));
    let once = again.status.is_none();
    Ok(first.status.is_some() == status && second.section.is_some() == section && once)
}

#[test]
fn a_place_is_lent_where_it_is_wanted(rt: HostRuntime) {
    met(&rt, 1, place_lends(rt.alloc(), &Op::Status(3), true, false));
    met(&rt, 2, place_lends(rt.alloc(), &Op::Next(4), false, true));
    met(&rt, 3, place_lends(rt.alloc(), &Op::Close(5), false, false));
}
