//! Whether two operations are the same.
ghost use Rattle.std.specs.Prelude.{◌≡◌, Decides};
ghost use Rattle.ckpt_types.specs.declared.operation.Op.TheVariants as ops;

use crate::items::same_text;
use crate::updates::{same_reads, same_update};
use ckpt_types::{
    CallbackSet, Moment, NodeId, Op, SharedAttributes, SharedName, SharedReads, SharedUpdate,
    Version,
};

/// Whether both ask for the same.
pub(crate) fn same_operation(one: &Op, other: &Op) -> bool
    ensures { Decides result (one.now ≡ other.now) }
{
    match other {
        Op::Client(node, version, callbacks) => is_client(one, *node, *version, *callbacks),
        Op::Finalize => matches!(one, Op::Finalize),
        Op::Open(place, name, flags, timeout, attributes) => is_open(
            one, *place, name, *flags, *timeout, attributes,
        ),
        Op::OpenAsync(place, invocation, name, flags, attributes) => is_open_async(
            one,
            *place,
            *invocation,
            name,
            *flags,
            attributes,
        ),
        Op::Close(place) => is_close(one, *place),
        Op::Unlink(name) => is_unlink(one, name),
        Op::Retain(place, duration) => is_retain(one, *place, *duration),
        Op::Active(place) => is_active(one, *place),
        Op::Status(place) => is_status(one, *place),
        Op::Create(place, update) => is_create(one, *place, update),
        Op::Delete(place, update) => is_delete(one, *place, update),
        Op::Expire(place, update) => is_expire(one, *place, update),
        Op::Iter(iteration, place, which, time) => is_iter(one, *iteration, *place, *which, *time),
        Op::Next(iteration) => is_next(one, *iteration),
        Op::EndIter(iteration) => is_end_iter(one, *iteration),
        Op::Write(place, update) => is_write(one, *place, update),
        Op::Over(place, update) => is_over(one, *place, update),
        Op::Read(place, elements) => is_read(one, *place, elements),
        Op::Sync(place, timeout) => is_sync(one, *place, *timeout),
        Op::SyncAsync(place, invocation) => is_sync_async(one, *place, *invocation),
        Op::Dispatch(flags) => is_dispatch(one, *flags),
        Op::Copy => matches!(one, Op::Copy),
    }
}

fn is_client(op: &Op, node: NodeId, version: Version, callbacks: CallbackSet) -> bool
    ensures { Decides result (op.now ≡ ops.Client node version callbacks) }
{
    let Op::Client(on, wanted, registered) = op else {
        return false;
    };
    if *on != node {
        return false;
    }
    if *wanted != version {
        return false;
    }
    *registered == callbacks
}

fn is_open(
    op: &Op,
    place: u8,
    name: &SharedName,
    flags: u32,
    timeout: Moment,
    attributes: &SharedAttributes,
) -> bool
    ensures { Decides result (op.now ≡ ops.Open place name.now flags timeout attributes.now) }
{
    let Op::Open(at, named, with, within, declared) = op else {
        return false;
    };
    if *at != place {
        return false;
    }
    if *with != flags {
        return false;
    }
    if *within != timeout {
        return false;
    }
    if !same_text(named.value(), name.value()) {
        return false;
    }
    declared.value() == attributes.value()
}

fn is_open_async(
    op: &Op,
    place: u8,
    invocation: u64,
    name: &SharedName,
    flags: u32,
    attributes: &SharedAttributes,
) -> bool
    ensures { Decides result (op.now ≡ ops.OpenAsync place invocation name.now flags attributes.now) }
{
    let Op::OpenAsync(at, invoked, named, with, declared) = op else {
        return false;
    };
    if *at != place {
        return false;
    }
    if *invoked != invocation {
        return false;
    }
    if *with != flags {
        return false;
    }
    if !same_text(named.value(), name.value()) {
        return false;
    }
    declared.value() == attributes.value()
}

fn is_close(op: &Op, place: u8) -> bool
    ensures { Decides result (op.now ≡ ops.Close place) }
{
    match op {
        Op::Close(other) => *other == place,
        _ => false,
    }
}

fn is_unlink(op: &Op, name: &SharedName) -> bool
    ensures { Decides result (op.now ≡ ops.Unlink name.now) }
{
    let Op::Unlink(named) = op else {
        return false;
    };
    same_text(named.value(), name.value())
}

fn is_retain(op: &Op, place: u8, duration: Moment) -> bool
    ensures { Decides result (op.now ≡ ops.Retain place duration) }
{
    let Op::Retain(at, kept) = op else {
        return false;
    };
    if *at != place {
        return false;
    }
    *kept == duration
}

fn is_active(op: &Op, place: u8) -> bool
    ensures { Decides result (op.now ≡ ops.Active place) }
{
    match op {
        Op::Active(other) => *other == place,
        _ => false,
    }
}

fn is_status(op: &Op, place: u8) -> bool
    ensures { Decides result (op.now ≡ ops.Status place) }
{
    match op {
        Op::Status(other) => *other == place,
        _ => false,
    }
}

fn is_create(op: &Op, place: u8, update: &SharedUpdate) -> bool
    ensures { Decides result (op.now ≡ ops.Create place update.now) }
{
    let Op::Create(at, made) = op else {
        return false;
    };
    if *at != place {
        return false;
    }
    same_update(made.value(), update.value())
}

fn is_delete(op: &Op, place: u8, update: &SharedUpdate) -> bool
    ensures { Decides result (op.now ≡ ops.Delete place update.now) }
{
    let Op::Delete(at, made) = op else {
        return false;
    };
    if *at != place {
        return false;
    }
    same_update(made.value(), update.value())
}

fn is_expire(op: &Op, place: u8, update: &SharedUpdate) -> bool
    ensures { Decides result (op.now ≡ ops.Expire place update.now) }
{
    let Op::Expire(at, made) = op else {
        return false;
    };
    if *at != place {
        return false;
    }
    same_update(made.value(), update.value())
}

fn is_iter(op: &Op, iteration: u8, place: u8, which: u64, time: Moment) -> bool
    ensures { Decides result (op.now ≡ ops.Iter iteration place which time) }
{
    let Op::Iter(numbered, at, chosen, than) = op else {
        return false;
    };
    if *numbered != iteration {
        return false;
    }
    if *at != place {
        return false;
    }
    if *chosen != which {
        return false;
    }
    *than == time
}

fn is_next(op: &Op, iteration: u8) -> bool
    ensures { Decides result (op.now ≡ ops.Next iteration) }
{
    match op {
        Op::Next(other) => *other == iteration,
        _ => false,
    }
}

fn is_end_iter(op: &Op, iteration: u8) -> bool
    ensures { Decides result (op.now ≡ ops.EndIter iteration) }
{
    match op {
        Op::EndIter(other) => *other == iteration,
        _ => false,
    }
}

fn is_write(op: &Op, place: u8, update: &SharedUpdate) -> bool
    ensures { Decides result (op.now ≡ ops.Write place update.now) }
{
    let Op::Write(at, made) = op else {
        return false;
    };
    if *at != place {
        return false;
    }
    same_update(made.value(), update.value())
}

fn is_over(op: &Op, place: u8, update: &SharedUpdate) -> bool
    ensures { Decides result (op.now ≡ ops.Over place update.now) }
{
    let Op::Over(at, made) = op else {
        return false;
    };
    if *at != place {
        return false;
    }
    same_update(made.value(), update.value())
}

fn is_read(op: &Op, place: u8, elements: &SharedReads) -> bool
    ensures { Decides result (op.now ≡ ops.Read place elements.now) }
{
    let Op::Read(at, asked) = op else {
        return false;
    };
    if *at != place {
        return false;
    }
    same_reads(asked.value(), elements.value())
}

fn is_sync(op: &Op, place: u8, timeout: Moment) -> bool
    ensures { Decides result (op.now ≡ ops.Sync place timeout) }
{
    let Op::Sync(at, within) = op else {
        return false;
    };
    if *at != place {
        return false;
    }
    *within == timeout
}

fn is_sync_async(op: &Op, place: u8, invocation: u64) -> bool
    ensures { Decides result (op.now ≡ ops.SyncAsync place invocation) }
{
    let Op::SyncAsync(at, invoked) = op else {
        return false;
    };
    if *at != place {
        return false;
    }
    *invoked == invocation
}

fn is_dispatch(op: &Op, flags: u32) -> bool
    ensures { Decides result (op.now ≡ ops.Dispatch flags) }
{
    match op {
        Op::Dispatch(other) => *other == flags,
        _ => false,
    }
}
