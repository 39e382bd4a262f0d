//! Calls in lists: one that is found, some that go, and the first ones told to their client.
ghost use Rattle.std.specs.Prelude.{◌≡◌, ◌+◌, ◌≤◌, IfOk, IfSome, length, drop, filter, not, vec_capacity, vec_len};
ghost use Rattle.std.specs.List.{FoldsTo};
ghost use Rattle.ckpt_types.specs.Limits.{pending_max};
ghost use Rattle.call_dispatch.specs.PendingCalls.{find_async, goes_over, is_call, other_calls, other_ended};

use crate::async_call::{AsyncCall, EndedCall};
use crate::callbacks::Callbacks;
use ckpt_types::{AsyncKind, CallId, PENDING_MAX};
use std::alloc::{AllocError, Global};

/// Whether these are two names of one call.
fn is_call(call: CallId, other: CallId) -> bool
    ensures { result ≡ is_call call other }
{
    call == other
}

/// Whether it is a synchronisation over the handle of that number.
fn goes_over(handle: u32, call: &AsyncCall) -> bool
    ensures { result ≡ goes_over handle call.now }
{
    match call.kind {
        AsyncKind::Sync => call.handle == handle,
        AsyncKind::Open(_) => false,
    }
}

/// The call of that name.
pub(crate) fn find_async(calls: &[AsyncCall], call: CallId) -> Option<AsyncCall>
    ensures { result ≡ find_async call calls.now }
{
    for kept in calls {
        if is_call(call, kept.call) {
            return Some(*kept);
        }
    }
    None
}

/// The call of that name goes.
pub(crate) fn forget_unfinished(calls: &mut Vec<AsyncCall>, call: CallId)
    ensures items { calls.new.items ≡ other_calls call calls.old.items }
    ensures capacity { vec_capacity calls.new ≡ vec_capacity calls.old }
    ensures bound { vec_len calls.new ≤ vec_len calls.old }
    ensures fewer { IfSome (find_async call calls.old.items) (λ _. vec_len calls.new + 1 ≤ vec_len calls.old) }
{
    calls.retain(|kept| !is_call(call, kept.call));
}

/// The call of that name goes.
pub(crate) fn forget_finished(calls: &mut Vec<EndedCall>, call: CallId)
    ensures items { calls.new.items ≡ other_ended call calls.old.items }
    ensures capacity { vec_capacity calls.new ≡ vec_capacity calls.old }
    ensures bound { vec_len calls.new ≤ vec_len calls.old }
{
    calls.retain(|ended| !is_call(call, ended.asked.call));
}

/// The synchronisations over the handle of that number go.
pub(crate) fn forget_unfinished_over(calls: &mut Vec<AsyncCall>, handle: u32)
    ensures items { calls.new.items ≡ filter (λ kept. not (goes_over handle kept)) calls.old.items }
    ensures capacity { vec_capacity calls.new ≡ vec_capacity calls.old }
    ensures bound { vec_len calls.new ≤ vec_len calls.old }
{
    calls.retain(|kept| !goes_over(handle, kept));
}

/// The synchronisations over the handle of that number go.
pub(crate) fn forget_finished_over(calls: &mut Vec<EndedCall>, handle: u32)
    ensures items { calls.new.items ≡ filter (λ ended. not (goes_over handle ended.asked)) calls.old.items }
    ensures capacity { vec_capacity calls.new ≡ vec_capacity calls.old }
    ensures bound { vec_len calls.new ≤ vec_len calls.old }
{
    calls.retain(|ended| !goes_over(handle, &ended.asked));
}

/// The client is told of each of them, in their order.
pub(crate) fn call_each<C: Callbacks>(calls: &[EndedCall], to: &mut C)
    ensures { FoldsTo C.called to.old calls.now to.new }
{
    for call in calls {
        to.callback(call);
    }
}

/// The first ones go.
pub(crate) fn drop_first(calls: &mut Vec<EndedCall>, count: usize)
    requires { count ≤ length calls.old.items }
    ensures items { calls.new.items ≡ drop count calls.old.items }
    ensures capacity { vec_capacity calls.new ≡ vec_capacity calls.old }
    ensures bound { vec_len calls.new ≤ vec_len calls.old }
{
    calls.drain(..count);
}

/// A copy of them, with room for all that a client may have.
pub(crate) fn copy_of<T: Copy + Drop>(alloc: Global, calls: &[T]) -> Result<Vec<T>, AllocError>
    requires { length calls.now ≤ pending_max }
    ensures items { IfOk result (λ copy. copy.items ≡ calls.now) }
    ensures capacity { IfOk result (λ copy. pending_max ≤ vec_capacity copy) }
{
    let mut copy = Vec::with_capacity(alloc, PENDING_MAX)?;
    copy.extend_from_slice(calls)?;
    Ok(copy)
}
