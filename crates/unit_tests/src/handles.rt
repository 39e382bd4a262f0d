//! One client where memory is there: its handles, an iteration that is lent, and a copy that takes it back too.
use crate::rows::{holds, met};
use ckpt_types::{
    AisError, CallbackSet, CkptId, CreationAttributes, OpenFlags, PLACES_MAX, WR_ALL_REPLICAS,
};
use client_handles::{Client, HandleView};
use section_iter::Iteration;
use std::alloc::{AllocError, Global};
use std::process::Abort;

/// Attributes for which an iteration has room for 5 identifiers.
const FIVE: CreationAttributes = CreationAttributes {
    creation_flags: WR_ALL_REPLICAS,
    checkpoint_size: 64,
    retention_duration: 0,
    max_sections: 5,
    max_section_size: 8,
    max_section_id_size: 8,
};

const WRITES: OpenFlags = OpenFlags {
    read: false,
    write: true,
    create: true,
};

/// Opens a handle, and sets a place to it. Its number, where there is such a place and one handle more may be open.
fn open_at(client: &mut Client, place: u8, id: CkptId) -> Option<u32> {
    if usize::from(place) >= PLACES_MAX || !client.handle_numbers_left() {
        return None;
    }
    let number = client.take_handle(id, WRITES, 12).ok()?;
    client.handle_numbered(number)?;
    client.bind(place, number);
    Some(number)
}

/// Begins an iteration over the handle of that number. Whether there is such, and room for it.
fn begins(client: &mut Client, alloc: Global, place: u8, handle: u32) -> Result<bool, AllocError> {
    if usize::from(place) >= PLACES_MAX || !client.iteration_numbers_left() {
        return Ok(false);
    }
    if client.handle_numbered(handle).is_none() {
        return Ok(false);
    }
    let iteration = Iteration::reserve(alloc, &FIVE)?;
    Ok(client.add_iteration(place, handle, iteration).is_ok())
}

/// Lends the iteration of a place, where it is kept.
fn lend(client: &mut Client, place: u8) -> Option<Iteration> {
    if client.is_lent(place) {
        return None;
    }
    client.lend_iteration(place).ok()
}

/// Gives an iteration back to its place, where it is lent.
fn gives_back(client: &mut Client, place: u8, iteration: Iteration) -> bool {
    if usize::from(place) >= PLACES_MAX {
        return false;
    }
    if !client.is_lent(place) {
        return false;
    }
    client.return_iteration(place, iteration);
    true
}

/// The handle of h7.
const SEVENTH: HandleView = HandleView {
    id: 6,
    flags: WRITES,
    creation_flags: 12,
    handle: 1,
};

/// Whether the iteration of a place goes over this handle.
fn goes_over(client: &Client, place: u8, handle: Result<HandleView, AisError>) -> bool {
    client.iteration_handle(place) == handle
}

/// Whether the drop of a handle answers so.
fn drops(client: &mut Client, place: u8, handle: Result<HandleView, AisError>) -> bool {
    client.drop_handle(place) == handle
}

/// The iteration of i3 ends with the handle of h7.
fn ends_with_handle(rt: &impl Abort, client: &mut Client) {
    holds(rt, 6, !client.is_lent(3));
    holds(rt, 7, goes_over(client, 3, Ok(SEVENTH)));
    holds(rt, 8, drops(client, 7, Ok(SEVENTH)));
    holds(rt, 9, client.handle(7) == Err(AisError::BadHandle));
    holds(rt, 10, goes_over(client, 3, Err(AisError::BadHandle)));
}

/// The iteration of i3 is given back, and ends with its handle.
fn takes_back(rt: &impl Abort, client: &mut Client, lent: Iteration) {
    holds(rt, 4, lent.room().ids == 5);
    holds(rt, 5, gives_back(client, 3, lent));
    ends_with_handle(rt, client);
}

/// A client takes back a copy of what is lent.
fn takes_copy_back(
    rt: &impl Abort,
    alloc: Global,
    client: &mut Client,
    lent: &Iteration,
) -> Result<(), AllocError> {
    let copy = lent.copy(alloc)?;
    takes_back(rt, client, copy);
    Ok(())
}

/// A copy of a client that lends i3 takes it back, too.
fn copy_takes_back(
    rt: &impl Abort,
    alloc: Global,
    client: &Client,
    lent: &Iteration,
) -> Result<(), AllocError> {
    let mut copy = client.copy(alloc)?;
    takes_copy_back(rt, alloc, &mut copy, lent)
}

/// What i3 lends is taken back by a copy of its client, and behind that by the client.
fn both_take_back(
    rt: &impl Abort,
    alloc: Global,
    client: &mut Client,
    lent: Iteration,
) -> Result<(), AllocError> {
    let copied = copy_takes_back(rt, alloc, client, &lent);
    takes_back(rt, client, lent);
    copied
}

/// A client lends i3.
fn lends(rt: &impl Abort, alloc: Global, client: &mut Client) -> Result<(), AllocError> {
    match lend(client, 3) {
        None => panic!(rt; "none was lent"),
        Some(lent) => {
            holds(rt, 3, client.is_lent(3));
            both_take_back(rt, alloc, client, lent)
        }
    }
}

/// A client has a handle at h7, and an iteration over it at i3.
fn begins_to_lend(rt: &impl Abort, alloc: Global, client: &mut Client) -> Result<(), AllocError> {
    holds(rt, 1, open_at(client, 7, 6) == Some(1));
    met(rt, 2, begins(client, alloc, 3, 1));
    lends(rt, alloc, client)
}

#[test]
fn a_copy_takes_back_what_its_client_has_lent(rt: HostRuntime) -> Result<(), AllocError> {
    let callbacks = CallbackSet {
        opens: true,
        syncs: false,
    };
    let mut client = Client::new(rt.alloc(), callbacks)?;
    begins_to_lend(&rt, rt.alloc(), &mut client)
}
