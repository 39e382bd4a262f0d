//! A call as it is in hand from its beginning, with the room that it takes.
ghost use Rattle.std.specs.Prelude.{◌≡◌, None, Some, IfOk, IsSome};
ghost use Rattle.ckpt_types.specs.Asks.{asked};
ghost use Rattle.ckpt_machine.specs.Driving.{driver_start};
ghost use Rattle.ckpt_machine.specs.Due.{IsBeginEnd, kept_at_beginning, declared_at, room_at};
ghost use Rattle.ckpt_machine.specs.Tables.{ckpt_of_handle};
ghost use Rattle.client_calls.specs.HandRooms.{room_for, copy_room_for};
ghost use Rattle.client_calls.specs.Names.{IsClientOf};

use crate::beginning::{ckpt_of_handle, takes_room};
use crate::drivers::Driver;
use crate::hand_rooms::HandRooms;
use crate::in_hand::InHand;
use ckpt_types::{CallId, Op, Outcome};
use client_handles::HandleView;
use cluster_record::Record;
use std::alloc::{AllocError, Global};

/// The room that an asynchronous call takes.
pub fn rooms_of(
    alloc: Global,
    op: &Op,
    cluster: &Record,
    handle: &Option<HandleView>,
) -> Result<HandRooms, AllocError>
    ensures iteration { IfOk result (λ rooms. rooms.iteration ≡ room_for (asked op.now) (room_at cluster.now (ckpt_of_handle handle.now))) }
    ensures snapshot { IfOk result (λ rooms. rooms.snapshot ≡ copy_room_for (asked op.now) (declared_at cluster.now (ckpt_of_handle handle.now))) }
{
    if !takes_room(op) {
        return Ok(HandRooms::none());
    }
    HandRooms::reserve(alloc, op, cluster, ckpt_of_handle(handle))
}

/// An operation that starts an iteration, or copies what the active has, takes the room for it where it goes on; where
/// the memory is refused, it ends.
#[inline(always)]
pub fn take_room(
    alloc: Global,
    op: &Op,
    cluster: &Record,
    handle: &Option<HandleView>,
    due: Option<Outcome>,
) -> (Option<Outcome>, HandRooms)
    ensures end { IsBeginEnd (asked op.now) due result.0 }
    ensures iteration { result.0 ≡ None → result.1.iteration ≡ room_for (asked op.now) (room_at cluster.now (ckpt_of_handle handle.now)) }
    ensures snapshot { result.0 ≡ None → result.1.snapshot ≡ copy_room_for (asked op.now) (declared_at cluster.now (ckpt_of_handle handle.now)) }
{
    if !takes_room(op) || due.is_some() {
        return (due, HandRooms::none());
    }
    match HandRooms::reserve(alloc, op, cluster, ckpt_of_handle(handle)) {
        Ok(rooms) => (None, rooms),
        Err(AllocError) => (Some(Outcome::NoMemory), HandRooms::none()),
    }
}

/// A call that goes on, as it is in hand from its beginning.
#[inline(always)]
pub fn begin_hand(
    call: CallId,
    op: &Op,
    handle: &Option<HandleView>,
    cluster: &Record,
    rooms: HandRooms,
) -> Result<InHand, AllocError>
    requires asker { IsClientOf call.actor (asked op.now) }
    requires goes_on { IsSome (driver_start call (asked op.now) (kept_at_beginning cluster.now call.actor handle.now)) }
    ensures hand { IfOk result (λ hand. hand ≡ record hand { call = call; op = op.now; iteration = rooms.iteration; snapshot = rooms.snapshot; made = None }) }
    ensures driver { IfOk result (λ hand. driver_start call (asked op.now) (kept_at_beginning cluster.now call.actor handle.now) ≡ Some hand.driver) }
{
    let driver = Driver::start(call, op, handle, cluster)?;
    let op = copy_of_op(op)?;
    Ok(InHand {
        call,
        op,
        driver,
        iteration: rooms.iteration,
        snapshot: rooms.snapshot,
        made: None,
    })
}

/// An equal operation, with shares of what it keeps.
pub(crate) fn copy_of_op(op: &Op) -> Result<Op, AllocError>
    ensures { IfOk result (λ copied. copied ≡ op.now) }
{
    op.clone()
}
