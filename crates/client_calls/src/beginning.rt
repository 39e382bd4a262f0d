//! What a call answers at its beginning.
ghost use Rattle.std.specs.Prelude.{◌≡◌, ℕ, ◌<◌, Bool, None, not, if◌then◌else◌};
ghost use Rattle.std.specs.Option.{option_or};
ghost use Rattle.ckpt_types.specs.declared.ais_error.AisError.TheVariants as errors;
ghost use Rattle.ckpt_types.specs.Asks.{asked, takes_room};
ghost use Rattle.ckpt_machine.specs.Beginning.{refused, if_live, version_is_bad, attributes_are_bad, open_begin, vector_is_bad, update_is_bad, choice_is_bad, if_registered, goes_on_alone, sync_alone, end_iteration, dispatch_begin, begin_end};
ghost use Rattle.call_dispatch.specs.PendingCalls.{PendingCalls, given_answer};
ghost use Rattle.client_calls.specs.Standings.{standing, by_right};
ghost use Rattle.ckpt_machine.specs.Tables.{ckpt_of_handle, choice_of};

use crate::table::Table;
use ckpt_types::{
    AisError, Answer, Bytes, CHECKPOINT_COLLOCATED, CHECKPOINT_CREATE, Cause, Choice, CkptId,
    CreationAttributes, Given, MAJOR_MAX, MAJOR_MIN, Moment, OPEN_FLAGS_ALL, Op, Outcome,
    PENDING_MAX, RELEASE, SECTIONS_ANY, Update, VECTOR_MAX, Version, WR_ALL_REPLICAS, has_flag,
    name_fits,
};
use client_handles::HandleView;

/// What a call asks of its handle.
#[derive(Drop)]
enum Right {
    /// That its place stands for one.
    Any,
    /// That it was opened for reading.
    Read,
    /// That it was opened for writing.
    Write,
    /// The same, and that updates are not on all replicas.
    Synchronize,
    /// The same as to write, and that the checkpoint is collocated.
    SetActive,
}

/// What a call of a client answers at once, where this is live or not, and its place stands for this handle; nothing
/// where the call goes on.
pub fn begin_end(live: bool, handle: &Option<HandleView>, op: &Op, table: &Table) -> Option<Outcome>
    ensures { result ≡ begin_end (standing live handle.now table.now) (asked op.now) }
{
    match op {
        Op::Client(_, version, _) => refused_if(version_is_bad(version), AisError::Version),
        Op::Open(_, name, flags, timeout, attributes) => {
            if_live(
                live,
                open_begin(name.value(), *flags, Some(*timeout), attributes.value()),
            )
        }
        Op::OpenAsync(_, _, name, flags, attributes) => {
            let refusal = open_begin(name.value(), *flags, None, attributes.value());
            if_live(
                live,
                alone(table.callbacks().opens, refusal, table.pending_count()),
            )
        }
        Op::Create(_, update)
        | Op::Delete(_, update)
        | Op::Expire(_, update)
        | Op::Write(_, update)
        | Op::Over(_, update) => {
            let bad = update_is_bad(update.value());
            if_live(live, on_handle(handle, bad, Right::Write))
        }
        Op::Read(_, elements) => {
            let bad = vector_is_bad(elements.value().as_slice().len());
            if_live(live, on_handle(handle, bad, Right::Read))
        }
        Op::Iter(_, _, chosen, _) => {
            if_live(live, on_handle(handle, choice_is_bad(*chosen), Right::Read))
        }
        Op::Status(_) | Op::Next(_) | Op::Close(_) => {
            if_live(live, on_handle(handle, false, Right::Any))
        }
        Op::EndIter(_) => if_live(live, end_iteration(handle)),
        Op::Retain(_, duration) => if_live(live, on_handle(handle, *duration < 0, Right::Any)),
        Op::Unlink(_) | Op::Finalize => if_live(live, None),
        Op::Sync(_, timeout) => {
            if_live(live, on_handle(handle, *timeout < 0, Right::Synchronize))
        }
        Op::SyncAsync(_, _) => if_live(live, sync_alone(handle, table)),
        Op::Active(_) => if_live(live, on_handle(handle, false, Right::SetActive)),
        Op::Dispatch(flags) => if_live(live, dispatch_begin(table.given(*flags))),
        Op::Copy => None,
    }
}

// What a call answers where its client is live, and stands for a handle if it needs one at once; BAD_HANDLE else.
fn if_live(live: bool, answer: Option<Outcome>) -> Option<Outcome>
    ensures { result ≡ if_live live answer }
{
    if live {
        answer
    } else {
        refused(AisError::BadHandle)
    }
}

// A synchronisation that goes on by itself, on a handle.
fn sync_alone(handle: &Option<HandleView>, table: &Table) -> Option<Outcome>
    ensures { (live : Bool) → result ≡ sync_alone (standing live handle.now table.now) handle.now }
{
    if handle.is_none() {
        return refused(AisError::BadHandle);
    }
    let refusal = on_handle(handle, false, Right::Synchronize);
    alone(table.callbacks().syncs, refusal, table.pending_count())
}

// An iteration is ended at once.
fn end_iteration(handle: &Option<HandleView>) -> Option<Outcome>
    ensures { result ≡ end_iteration handle.now }
{
    match handle {
        None => refused(AisError::BadHandle),
        Some(_) => Some(Outcome::Done(Answer::Nothing)),
    }
}

// An asynchronous call whose callback is registered goes on by itself where no refusal comes first, and fewer than may be
// are not dispatched.
fn alone(registered: bool, refusal: Option<Outcome>, pending: usize) -> Option<Outcome>
    ensures { result ≡ if_registered registered (option_or refusal (goes_on_alone pending)) }
{
    if !registered {
        return refused(AisError::Init);
    }
    if refusal.is_some() {
        return refusal;
    }
    if pending >= PENDING_MAX {
        let count = PENDING_MAX as u32;
        return Some(Outcome::Refused(AisError::NoResources, Cause::Count(count)));
    }
    Some(Outcome::Done(Answer::Nothing))
}

// A dispatch answers what it gives and leaves.
fn dispatch_begin(given: Result<Given, AisError>) -> Option<Outcome>
    ensures { (flags : ℕ) → (p : PendingCalls) → given ≡ given_answer flags p → result ≡ dispatch_begin flags p }
{
    match given {
        Ok(given) => Some(Outcome::Done(Answer::Dispatched(given))),
        Err(error) => refused(error),
    }
}

/// Whether an operation takes room for an iteration or a snapshot.
pub fn takes_room(op: &Op) -> bool
    ensures { result ≡ takes_room (asked op.now) }
{
    match op {
        Op::Iter(_, _, _, _) | Op::Sync(_, _) | Op::SyncAsync(_, _) | Op::Active(_) | Op::Copy =>
            true,
        _ => false,
    }
}

/// The choice of an iteration; what is none chooses nothing.
pub fn choice_of(chosen: u64, time: Moment) -> Choice
    ensures { result ≡ choice_of chosen time }
{
    let chosen = if chosen <= u64::from(SECTIONS_ANY) {
        chosen as u32
    } else {
        0
    };
    Choice { chosen, time }
}

/// The checkpoint of a handle.
pub fn ckpt_of_handle(handle: &Option<HandleView>) -> Option<CkptId>
    ensures { result ≡ ckpt_of_handle handle.now }
{
    match handle {
        None => None,
        Some(handle) => Some(handle.id),
    }
}

fn refused(error: AisError) -> Option<Outcome>
    ensures { result ≡ refused error }
{
    Some(Outcome::Refused(error, Cause::Plain))
}

fn refused_if(bad: bool, error: AisError) -> Option<Outcome>
    ensures { result ≡ (if bad then refused error else None) }
{
    if bad { refused(error) } else { None }
}

fn version_is_bad(version: &Version) -> bool
    ensures { result ≡ version_is_bad version.now }
{
    version.release != RELEASE || !(version.major == MAJOR_MIN || version.major == MAJOR_MAX)
}

fn open_begin(
    name: &Bytes,
    flags: u32,
    timeout: Option<Moment>,
    attributes: &Option<CreationAttributes>,
) -> Option<Outcome>
    ensures { result ≡ open_begin name.now flags timeout attributes.now }
{
    if flags == 0 || flags > OPEN_FLAGS_ALL {
        return refused(AisError::BadFlags);
    }
    let early = match timeout {
        None => false,
        Some(timeout) => timeout < 0,
    };
    let bad = !name_fits(name) || early || attributes_are_bad(flags, attributes);
    refused_if(bad, AisError::InvalidParam)
}

fn attributes_are_bad(flags: u32, attributes: &Option<CreationAttributes>) -> bool
    ensures { result ≡ attributes_are_bad flags attributes.now }
{
    let creates = has_flag(flags, CHECKPOINT_CREATE);
    match attributes {
        None => creates,
        Some(attributes) => !creates || attributes.check().is_err(),
    }
}

fn choice_is_bad(chosen: u64) -> bool
    ensures { result ≡ choice_is_bad chosen }
{
    chosen == 0 || chosen > u64::from(SECTIONS_ANY)
}

fn vector_is_bad(len: usize) -> bool
    ensures { result ≡ vector_is_bad len }
{
    len == 0 || len > VECTOR_MAX
}

fn update_is_bad(update: &Update) -> bool
    ensures { result ≡ update_is_bad update.now }
{
    match update {
        Update::Write(elements) => vector_is_bad(elements.as_slice().len()),
        _ => false,
    }
}

// What a call over a handle answers, its arguments being bad or not.
#[inline(always)]
fn on_handle(handle: &Option<HandleView>, bad: bool, right: Right) -> Option<Outcome>
    ensures { result ≡ by_right right handle.now bad }
{
    let Some(handle) = handle else {
        return refused(AisError::BadHandle);
    };
    if bad {
        return refused(AisError::InvalidParam);
    }
    match right {
        Right::Any => None,
        Right::Read => refused_if(!handle.flags.read, AisError::Access),
        Right::Write => refused_if(!handle.flags.write, AisError::Access),
        Right::Synchronize => {
            let all = handle.creation_flags == WR_ALL_REPLICAS;
            change_begin(handle.flags.write, all)
        }
        Right::SetActive => {
            let collocated = has_flag(handle.creation_flags, CHECKPOINT_COLLOCATED);
            change_begin(handle.flags.write, !collocated)
        }
    }
}

// What is answered to a call that writes a checkpoint whose attributes may forbid it.
fn change_begin(may: bool, forbidden: bool) -> Option<Outcome>
    ensures { result ≡ (if not may then refused errors.Access else if forbidden then refused errors.BadOperation else None) }
{
    if may {
        refused_if(forbidden, AisError::BadOperation)
    } else {
        refused(AisError::Access)
    }
}
