//! What one client keeps: numbers, handles, iterations and places, and its asynchronous calls.
ghost use Rattle.std.specs.Prelude.{◌≡◌, ◌-◌, ◌+◌, ◌^◌, ◌<◌, ◌≤◌, true, IfOk, IfSome, IsSome, is_some, OnErr, OnOk, MatchOption, length, map, take};
ghost use Rattle.ckpt_types.specs.declared.answers.Answer.{Answer};
ghost use Rattle.ckpt_types.specs.Asks.{asked, IsBuilt};
ghost use Rattle.ckpt_types.specs.Attributes.{open_flags_of};
ghost use Rattle.ckpt_types.specs.Limits.{checkpoints_max, places_max};
ghost use Rattle.client_handles.specs.ClientState.{handle_at, handle_numbered, has_handle_room, has_iteration_room, iterated_at, kept_at, emptied, ended, taken, IsLent, IsValid};
ghost use Rattle.call_dispatch.specs.PendingCalls.{callback_of, dispatched, given_answer, given_by, given_number, no_pending, pending_count, with_begun};
ghost use Rattle.ckpt_machine.specs.After.{async_call, left_over};
ghost use Rattle.ckpt_machine.specs.Tables.{flags_or_none, handle_asked, handle_given, kept_asked, started, closing, handle_closed, has_place, places_set, registering};
ghost use Rattle.cluster_record.specs.Failing.{goes_with_node};
ghost use Rattle.client_calls.specs.Abandoning.{table_left};
ghost use Rattle.client_calls.specs.Lending.{come_back, lending, IsGoingOnWith, IsOutOf};
ghost use Rattle.client_calls.specs.LentIterations.{lending_if_there, lent_where_kept, IsOutIfLent};
ghost use Rattle.client_calls.specs.NewTable.{new_table, table_of};
ghost use Rattle.client_calls.specs.TableEnds.{table_ended};
ghost use Rattle.client_calls.specs.TableView.{calls_in, client_in};
ghost use Rattle.client_calls.specs.TableState.{with_room, with_client, begun_with, with_calls, begun_done, client_part, CanBegin, CanBeginDone, CanGoOnAlone};

use crate::abandoning::is_on;
use crate::kept_calls::{async_call, callbacks_of, dispatch, given_of_none};
use call_dispatch::Pending;
use ckpt_types::{
    AisError, Answer, CallId, Callback, CallbackSet, CkptId, Elements, Given, HANDLES_MAX, NodeId,
    Op, OpenFlags, Outcome,
};
use client_handles::{Client, HandleView};
use cluster_record::Record;
use section_iter::Iteration;
use std::alloc::{AllocError, Global};
use std::marker::Model;

/// No callback is registered.
const NO_CALLBACKS: CallbackSet = CallbackSet {
    opens: false,
    syncs: false,
};

/// Opened for nothing.
const NO_FLAGS: OpenFlags = OpenFlags {
    read: false,
    write: false,
    create: false,
};

/// What a client keeps.
#[derive(Drop)]
pub struct Table {
    /// The number of its next call.
    next: u32,
    /// Its handles, and the places that stand for them; nothing before their room was taken.
    client: Option<Box<Client>>,
    /// Its asynchronous calls that are not dispatched; nothing before their room was taken.
    pending: Option<Box<Pending>>,
}

impl Model for Table {
    ghost use Rattle.client_calls.specs.TableState.{TableState};

    ghost Value = { TableState };

    ghost use Rattle.client_calls.specs.TableView.{table_shown, HasBoth};

    ghost view = { table_shown };

    ghost invariant = { HasBoth };
}

impl Table {
    /// The table of a client that has begun no call. Its room is taken later.
    pub fn new() -> Table
        ensures { result ≡ new_table }
    {
        Table {
            next: 1,
            client: None,
            pending: None,
        }
    }

    /// The table of a client whose next call has this number, and which keeps this, if its room was taken. It has no
    /// asynchronous calls.
    pub fn of(alloc: Global, next: u32, client: Option<Client>) -> Result<Table, AllocError>
        ensures { IfOk result (λ table. table ≡ table_of next client) }
    {
        let Some(client) = client else {
            return Ok(Table {
                next,
                client: None,
                pending: None,
            });
        };
        let client = Box::new(alloc, client)?;
        let pending = Box::new(alloc, Pending::new(alloc)?)?;
        Ok(Table {
            next,
            client: Some(client),
            pending: Some(pending),
        })
    }

    /// An equal one, with as much room. An iteration that is lent is lent in the copy, too.
    pub fn copy(&self, alloc: Global) -> Result<Table, AllocError>
        ensures { IfOk result (λ copy. copy ≡ self.now) }
    {
        Ok(Table {
            next: self.next,
            client: copy_of_client(alloc, &self.client)?,
            pending: copy_of_pending(alloc, &self.pending)?,
        })
    }

    /// The room for the client's handles, iterations and asynchronous calls is taken, unless it was.
    pub fn take_room(&mut self, alloc: Global) -> Result<(), AllocError>
        ensures taken { OnOk result (self.new ≡ with_room self.old) }
        ensures unchanged { OnErr result (self.new ≡ self.old) }
    {
        if self.client.is_some() {
            return Ok(());
        }
        let client = Box::new(alloc, Client::new(alloc, NO_CALLBACKS)?)?;
        self.pending = Some(Box::new(alloc, Pending::new(alloc)?)?);
        self.client = Some(client);
        Ok(())
    }

    /// Its handles, iterations and places; nothing before their room was taken. Its asynchronous calls go.
    pub fn into_client(self) -> Option<Client>
        ensures { result ≡ client_part self }
    {
        let Table {
            next: _,
            client,
            pending: _,
        } = self;
        match client {
            None => None,
            Some(client) => Some(Box::into_inner(client)),
        }
    }

    /// The number of the client's next call.
    pub fn number(&self) -> u32
        ensures { result ≡ self.now.next }
    {
        self.next
    }

    /// Whether there is a place for one handle more, where each of so many that are in the making has one.
    pub fn has_place(&self, making: usize) -> bool
        requires { making ≤ checkpoints_max }
        ensures { result ≡ has_place making self.now.client }
    {
        match &self.client {
            None => making < HANDLES_MAX,
            Some(client) => client.handles_open() + making < HANDLES_MAX,
        }
    }

    /// The callbacks that the client has registered.
    pub fn callbacks(&self) -> CallbackSet
        ensures { result ≡ self.now.client.callbacks }
    {
        match &self.client {
            None => NO_CALLBACKS,
            Some(client) => client.callbacks(),
        }
    }

    /// How many asynchronous calls are not dispatched.
    pub fn pending_count(&self) -> usize
        ensures { result ≡ pending_count self.now.pending }
    {
        match &self.pending {
            None => 0,
            Some(pending) => pending.len(),
        }
    }

    /// How many callbacks a dispatch gives, and how many calls it leaves that have ended. `InvalidParam` where it has other
    /// flags than there are.
    pub fn given(&self, flags: u32) -> Result<Given, AisError>
        ensures { result ≡ given_answer flags self.now.pending }
    {
        match &self.pending {
            None => given_of_none(flags),
            Some(pending) => pending.given(flags),
        }
    }

    /// The callbacks of the calls that have ended first, so many.
    pub fn callbacks_given(
        &self,
        alloc: Global,
        count: u32,
    ) -> Result<Elements<Callback>, AllocError>
        requires { count ≤ length self.now.pending.finished }
        ensures { IfOk result (λ callbacks. callbacks ≡ map callback_of (take count self.now.pending.finished)) }
    {
        match &self.pending {
            None => Ok(Elements::from_vec(Vec::new(alloc))),
            Some(pending) => callbacks_of(alloc, &pending.finished()[..count as usize]),
        }
    }

    /// Whether there is a free place for an iteration.
    pub fn has_iteration_room(&self) -> bool
        ensures { result ≡ has_iteration_room self.now.client }
    {
        match &self.client {
            None => true,
            Some(client) => client.iteration_room(),
        }
    }

    /// The asynchronous calls that are not dispatched; nothing before their room was taken.
    pub fn pending(&self) -> Option<&Pending>
        ensures { MatchOption result (self.now.pending ≡ no_pending) (λ pending. self.now.pending ≡ pending.now) }
    {
        match &self.pending {
            None => None,
            Some(pending) => Some(pending),
        }
    }

    // The handle for which a place stands.
    fn handle(&self, place: u8) -> Option<HandleView>
        ensures { result ≡ handle_at place self.now.client }
    {
        match &self.client {
            None => None,
            Some(client) => client.handle(place).ok(),
        }
    }

    // The handle over which the iteration goes for which a place stands.
    fn iteration_handle(&self, place: u8) -> Option<HandleView>
        ensures { result ≡ iterated_at place self.now.client }
    {
        match &self.client {
            None => None,
            Some(client) => client.iteration_handle(place).ok(),
        }
    }

    /// The handle that an operation is about: that of its place, or that over which its iteration goes.
    pub fn handle_asked(&self, op: &Op) -> Option<HandleView>
        ensures { result ≡ handle_asked (asked op.now) self.now.client }
    {
        match op {
            Op::Create(place, _)
            | Op::Delete(place, _)
            | Op::Expire(place, _)
            | Op::Write(place, _)
            | Op::Over(place, _)
            | Op::Read(place, _)
            | Op::Status(place)
            | Op::Iter(_, place, _, _)
            | Op::Close(place)
            | Op::Retain(place, _)
            | Op::Sync(place, _)
            | Op::SyncAsync(place, _)
            | Op::Active(place) => self.handle(*place),
            Op::Next(iteration) | Op::EndIter(iteration) => self.iteration_handle(*iteration),
            _ => None,
        }
    }

    /// The client starts the iteration that an operation starts, over the handle of its place; nothing where that stands for
    /// none. It takes no memory.
    pub fn start(&mut self, op: &Op, iteration: Iteration)
        requires built { IsBuilt op.now }
        requires room { has_iteration_room self.old.client ≡ true }
        requires number { self.old.client.last_iteration < 2 ^ 32 - 1 }
        ensures { self.new ≡ with_client (started (asked op.now) iteration.room (λ choice. iteration.ids)) self.old }
    {
        let Op::Iter(place, over, _, _) = op else {
            return;
        };
        let Some(handle) = self.handle(*over) else {
            return;
        };
        let Some(client) = &mut self.client else {
            unreachable!()
        };
        let Ok(()) = client.add_iteration(*place, handle.handle, iteration) else {
            unreachable!()
        };
    }

    /// The iteration with which an operation goes on is lent. Its place goes on to stand for it.
    pub fn lend_iteration(&mut self, op: &Op) -> Option<Iteration>
        requires can { IsGoingOnWith (asked op.now) self.old.client }
        ensures lent { result ≡ kept_asked (asked op.now) self.old.client }
        ensures valid { IsValid self.old.client }
        ensures new { self.new ≡ with_client (lending (asked op.now)) self.old }
    {
        let (Some(client), Op::Next(place)) = (&mut self.client, op) else {
            unreachable!()
        };
        client.lend_iteration(*place).ok()
    }

    /// The iteration with which an operation goes on is lent where it is in its place, as by `lend_iteration`; else nothing
    /// changes. It asks nothing of its caller but that the operation names a place.
    pub fn lend_if_there(&mut self, op: &Op) -> Option<Iteration>
        requires built { IsBuilt op.now }
        ensures lent { result ≡ kept_asked (asked op.now) self.old.client }
        ensures new { self.new ≡ lending_if_there (asked op.now) self.old }
        ensures out { IsOutIfLent result (asked op.now) self.new }
    {
        let (Some(client), Op::Next(place)) = (&mut self.client, op) else {
            return None;
        };
        lend_at(client, *place)
    }

    /// The iteration with which an operation went on comes back to its place.
    pub fn return_iteration(&mut self, op: &Op, iteration: Iteration)
        requires out { IsOutOf (asked op.now) self.old.client }
        ensures { self.new ≡ with_client (come_back (asked op.now) iteration) self.old }
    {
        let (Some(client), Op::Next(place)) = (&mut self.client, op) else {
            unreachable!()
        };
        client.return_iteration(*place, iteration);
    }

    /// The client begins one call more. Where it is answered OK, it has ended its iteration, is one that is not dispatched,
    /// or has given callbacks. It takes no memory.
    #[inline(always)]
    pub fn begin(
        &mut self,
        call: CallId,
        op: &Op,
        handle: &Option<HandleView>,
        end: &Option<Outcome>,
    )
        requires number { self.old.next < 2 ^ 32 - 1 }
        requires can { CanBegin end.now call op.now self.old }
        ensures { self.new ≡ begun_with end.now call op.now handle.now self.old }
    {
        self.next += 1;
        if let Some(Outcome::Done(_)) = end {
            self.begin_done(call, op, handle);
        }
    }

    // What an operation changes that is answered OK at its beginning.
    #[inline(never)]
    fn begin_done(&mut self, call: CallId, op: &Op, handle: &Option<HandleView>)
        requires { CanBeginDone call op.now self.old }
        ensures { (answer : Answer) → self.new ≡ begun_done answer call op.now handle.now self.old }
    {
        match op {
            Op::EndIter(place) => self.end(*place),
            Op::OpenAsync(..) | Op::SyncAsync(..) => self.go_on_alone(call, op, handle),
            Op::Dispatch(flags) => self.dispatch(*flags),
            _ => {}
        }
    }

    // An asynchronous call goes on by itself.
    fn go_on_alone(&mut self, call: CallId, op: &Op, handle: &Option<HandleView>)
        requires { CanGoOnAlone call self.old }
        ensures { self.new ≡ with_calls (with_begun (async_call call op.now handle.now)) self.old }
    {
        let Some(pending) = &mut self.pending else {
            unreachable!()
        };
        let Ok(()) = pending.begin(async_call(call, op, handle)) else {
            unreachable!()
        };
    }

    // Callbacks are given: the places of the opens that they tell are set, and the calls are dispatched.
    fn dispatch(&mut self, flags: u32)
        ensures { self.new ≡ record self.old { client = places_set (given_by flags self.old.pending) self.old.client; pending = dispatched (given_number flags self.old.pending) self.old.pending } }
    {
        let (Some(client), Some(pending)) = (&mut self.client, &mut self.pending) else {
            return;
        };
        dispatch(client, pending, flags);
    }

    // The iteration of a place ends, if it stands for one.
    fn end(&mut self, place: u8)
        ensures { self.new ≡ with_client (ended place) self.old }
    {
        if let Some(client) = &mut self.client {
            let _ended = client.end_iteration(place);
        }
    }

    /// The client becomes live with the callbacks that it registers.
    pub fn register(&mut self, op: &Op)
        requires { self.old.roomy ≡ true }
        ensures { self.new ≡ with_client (registering (asked op.now)) self.old }
    {
        let Some(client) = &mut self.client else {
            unreachable!()
        };
        if let Op::Client(_, _, callbacks) = op {
            client.register(*callbacks);
        }
    }

    /// The number of the handle that an operation closes, if it closes one.
    pub fn handle_closed(&self, op: &Op) -> Option<u32>
        ensures { result ≡ handle_closed (asked op.now) self.now.client }
    {
        let Op::Close(place) = op else {
            return None;
        };
        match self.handle(*place) {
            None => None,
            Some(handle) => Some(handle.handle),
        }
    }

    /// An asynchronous call has ended, and waits for its dispatch. It takes no memory.
    pub fn finish(&mut self, call: CallId, end: Outcome)
        ensures { self.new ≡ table_ended call end self.old }
    {
        let (Some(client), Some(pending)) = (&self.client, &mut self.pending) else {
            return;
        };
        let opened = match &end {
            Outcome::Done(Answer::Opened(_)) => Some(client.last_handle()),
            _ => None,
        };
        pending.finish(call, opened, end);
    }

    /// The asynchronous synchronisations over a handle that is closed go, if one is.
    pub fn forget_over(&mut self, handle: Option<u32>)
        ensures { self.new ≡ with_calls (left_over handle) self.old }
    {
        let (Some(pending), Some(handle)) = (&mut self.pending, handle) else {
            return;
        };
        pending.forget_over(handle);
    }

    /// All asynchronous calls go.
    pub fn forget_all(&mut self)
        ensures { self.new ≡ with_calls (λ p. no_pending) self.old }
    {
        if let Some(pending) = &mut self.pending {
            pending.clear();
        }
    }

    /// This is the table of the client of that number: where it is live on the node, its handles, its iterations and its
    /// asynchronous calls go. It takes no memory.
    pub fn cut_off(&mut self, cluster: &Record, client: u8, node: NodeId)
        ensures { self.new ≡ table_left (goes_with_node cluster.now node) client self.old }
    {
        if is_on(cluster, client, node) {
            self.leave();
            self.forget_all();
        }
    }

    /// The client gets the handle of a checkpoint that an open gives, of the number after its last one, and the place of the
    /// open stands for it. It takes no memory.
    pub fn give(&mut self, op: &Op, ckpt: CkptId, creation_flags: u32)
        requires built { IsBuilt op.now }
        requires roomy { self.old.roomy ≡ true }
        requires room { has_handle_room self.old.client ≡ true }
        requires number { self.old.client.last_number < 2 ^ 32 - 1 }
        ensures { self.new ≡ with_client (handle_given (asked op.now) ckpt creation_flags) self.old }
    {
        let Some(client) = &mut self.client else {
            unreachable!()
        };
        match op {
            Op::Open(place, _, flags, _, _) => {
                let number = take(client, ckpt, *flags, creation_flags);
                client.bind(*place, number);
            }
            Op::OpenAsync(_, _, _, flags, _) => {
                let _number = take(client, ckpt, *flags, creation_flags);
            }
            _ => {}
        }
    }

    /// The handle is closed that an operation closes, and the iterations over it end. Where its place stands for none nothing
    /// changes. It takes no memory.
    pub fn close(&mut self, op: &Op)
        ensures { self.new ≡ with_client (closing (asked op.now)) self.old }
    {
        let Op::Close(place) = op else {
            return;
        };
        if let Some(client) = &mut self.client {
            let _closed = client.drop_handle(*place);
        }
    }

    /// All handles are closed, and all iterations end. The places then stand for none, and no number is given again. It takes
    /// no memory.
    pub fn leave(&mut self)
        ensures { self.new ≡ with_client emptied self.old }
    {
        if let Some(client) = &mut self.client {
            client.close_all();
        }
    }
}

// The iteration of a place is lent where it is there and not lent.
fn lend_at(client: &mut Client, place: u8) -> Option<Iteration>
    requires { place < places_max }
    ensures lent { result ≡ kept_at place client.old }
    ensures new { client.new ≡ lent_where_kept place (kept_at place client.old) client.old }
    ensures out { IfSome result (λ kept. IsLent place client.new) }
{
    if client.is_lent(place) {
        return None;
    }
    client.lend_iteration(place).ok()
}

fn copy_of_client(
    alloc: Global,
    client: &Option<Box<Client>>,
) -> Result<Option<Box<Client>>, AllocError>
    ensures there { IfOk result (λ copy. is_some copy ≡ is_some client.now) }
    ensures client { IfOk result (λ copy. client_in copy ≡ client_in client.now) }
{
    match client {
        None => Ok(None),
        Some(client) => Ok(Some(Box::new(alloc, client.copy(alloc)?)?)),
    }
}

fn copy_of_pending(
    alloc: Global,
    pending: &Option<Box<Pending>>,
) -> Result<Option<Box<Pending>>, AllocError>
    ensures there { IfOk result (λ copy. is_some copy ≡ is_some pending.now) }
    ensures calls { IfOk result (λ copy. calls_in copy ≡ calls_in pending.now) }
{
    match pending {
        None => Ok(None),
        Some(pending) => Ok(Some(Box::new(alloc, pending.copy(alloc)?)?)),
    }
}

// A handle more of a checkpoint, opened by these flags, or for nothing where they are none; its number.
fn take(client: &mut Client, ckpt: CkptId, flags: u32, creation_flags: u32) -> u32
    requires room { has_handle_room client.old ≡ true }
    requires number { client.old.last_number < 2 ^ 32 - 1 }
    ensures there { IsSome (handle_numbered result client.new.handles) }
    ensures number { result ≡ client.old.last_number + 1 }
    ensures new { client.new ≡ taken ckpt (flags_or_none (open_flags_of flags)) creation_flags client.old }
{
    let Ok(number) = client.take_handle(ckpt, opened_for(flags), creation_flags) else {
        unreachable!()
    };
    number
}

// What flags open for; nothing where they are none.
fn opened_for(flags: u32) -> OpenFlags
    ensures { result ≡ flags_or_none (open_flags_of flags) }
{
    match OpenFlags::from_bits(flags) {
        Ok(flags) => flags,
        Err(_) => NO_FLAGS,
    }
}
