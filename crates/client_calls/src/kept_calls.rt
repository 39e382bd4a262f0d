//! What becomes of the asynchronous calls of one client that are not dispatched.
ghost use Rattle.std.specs.Prelude.{◌≡◌, ◌<◌, ◌^◌, IfOk, length, map};
ghost use Rattle.call_dispatch.specs.PendingCalls.{callback_of, dispatched, given_answer, given_by, given_number, no_pending};
ghost use Rattle.ckpt_machine.specs.After.{async_call};
ghost use Rattle.ckpt_machine.specs.Tables.{places_set};

use call_dispatch::{AsyncCall, EndedCall, Pending};
use ckpt_types::{
    AisError, AsyncKind, CallId, Callback, DISPATCH_ALL, DISPATCH_ONE, Elements, Given, Op,
};
use client_handles::{Client, HandleView};
use std::alloc::{AllocError, Global};

/// How many callbacks a dispatch gives where no call is kept: none.
pub(crate) fn given_of_none(flags: u32) -> Result<Given, AisError>
    ensures { result ≡ given_answer flags no_pending }
{
    if flags != DISPATCH_ONE && flags != DISPATCH_ALL {
        return Err(AisError::InvalidParam);
    }
    Ok(Given { given: 0, left: 0 })
}

/// An asynchronous call as it is kept till it is dispatched, with the handle of its place, if it is over one.
pub(crate) fn async_call(call: CallId, op: &Op, handle: &Option<HandleView>) -> AsyncCall
    ensures { result ≡ async_call call op.now handle.now }
{
    let (kind, invocation) = match op {
        Op::OpenAsync(place, invocation, ..) => (AsyncKind::Open(*place), *invocation),
        Op::SyncAsync(_, invocation) => (AsyncKind::Sync, *invocation),
        _ => (AsyncKind::Sync, 0),
    };
    let handle = match handle {
        None => 0,
        Some(handle) => handle.handle,
    };
    AsyncCall {
        call,
        kind,
        invocation,
        handle,
    }
}

/// The callbacks of calls that have ended; one alone takes no memory.
pub(crate) fn callbacks_of(
    alloc: Global,
    ended: &[EndedCall],
) -> Result<Elements<Callback>, AllocError>
    requires { length ended.now < 2 ^ 32 }
    ensures { IfOk result (λ callbacks. callbacks ≡ map callback_of ended.now) }
{
    if let [only] = ended {
        return Ok(Elements::one(only.callback()));
    }
    Ok(Elements::from_vec(each_callback(alloc, ended)?))
}

// The callback of each.
fn each_callback(alloc: Global, ended: &[EndedCall]) -> Result<Vec<Callback>, AllocError>
    ensures { IfOk result (λ callbacks. callbacks.items ≡ map callback_of ended.now) }
{
    let mut callbacks = Vec::with_capacity(alloc, ended.len())?;
    for call in ended {
        callbacks.push_reserved(call.callback());
    }
    Ok(callbacks)
}

/// Callbacks are given: the places of the opens that they tell are set, and the calls are dispatched.
pub(crate) fn dispatch(client: &mut Client, pending: &mut Pending, flags: u32)
    ensures client { client.new ≡ places_set (given_by flags pending.old) client.old }
    ensures pending { pending.new ≡ dispatched (given_number flags pending.old) pending.old }
{
    let Ok(given) = pending.given(flags) else {
        return;
    };
    let count = given.given as usize;
    set_places(client, &pending.finished()[..count]);
    pending.give(count);
}

// The callback of an open sets its place to the handle that it has opened.
fn set_places(client: &mut Client, ended: &[EndedCall])
    ensures { client.new ≡ places_set ended.now client.old }
{
    for call in ended {
        if let AsyncKind::Open(place) = call.asked.kind {
            client.bind_open(place, call.asked.handle);
        }
    }
}
