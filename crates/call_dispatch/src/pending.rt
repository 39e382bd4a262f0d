//! The asynchronous calls of one client that were not dispatched.
ghost use Rattle.std.specs.Prelude.{◌≡◌, ◌≤◌, length, IfOk, OnErr, OnOk};
ghost use Rattle.std.specs.List.{FoldsTo};
ghost use Rattle.ckpt_types.specs.Limits.{pending_max};
ghost use Rattle.call_dispatch.specs.PendingCalls.{begun_answer, dispatched, ended_in, find_async, forgotten, forgotten_over, given_answer, given_by, given_number, has_callbacks, no_pending, pending_count, with_begun};

use crate::async_call::{AsyncCall, EndedCall};
use crate::callbacks::Callbacks;
use crate::kept::{
    call_each, copy_of, drop_first, find_async, forget_finished, forget_finished_over,
    forget_unfinished, forget_unfinished_over,
};
use ckpt_types::{
    AisError, CallId, Count, DISPATCH_ALL, DISPATCH_ONE, Given, Outcome, PENDING_MAX,
};
use std::alloc::{AllocError, Global};
use std::marker::Model;

/// The asynchronous calls of one client that were not dispatched: those under way, and those that have ended, in the
/// order of their ends.
#[derive(Drop)]
pub struct Pending {
    /// Those under way, in the order of their beginning.
    unfinished: Vec<AsyncCall>,
    /// Those that have ended, in the order of their ends.
    finished: Vec<EndedCall>,
}

impl Model for Pending {
    ghost use Rattle.call_dispatch.specs.PendingCalls.{PendingCalls};

    ghost Value = { PendingCalls };

    ghost use Rattle.call_dispatch.specs.Pending.{pending_shown, IsSound};

    ghost view = { pending_shown };

    ghost invariant = { IsSound };
}

impl Pending {
    /// None, with room for `PENDING_MAX`. Of the later calls only `copy` takes memory.
    pub fn new(alloc: Global) -> Result<Pending, AllocError>
        ensures { IfOk result (λ pending. pending ≡ no_pending) }
    {
        Ok(Pending {
            unfinished: Vec::with_capacity(alloc, PENDING_MAX)?,
            finished: Vec::with_capacity(alloc, PENDING_MAX)?,
        })
    }

    /// How many calls were not dispatched.
    pub fn len(&self) -> usize
        ensures count { result ≡ pending_count self.now }
        ensures few { pending_count self.now ≤ pending_max }
    {
        self.unfinished.len() + self.finished.len()
    }

    /// Those under way, in the order of their beginning.
    pub fn unfinished(&self) -> &[AsyncCall]
        ensures { result.now ≡ self.now.unfinished }
    {
        self.unfinished.as_slice()
    }

    /// Those that have ended, in the order of their ends.
    pub fn finished(&self) -> &[EndedCall]
        ensures { result.now ≡ self.now.finished }
    {
        self.finished.as_slice()
    }

    /// The call of that name that is under way.
    pub fn find(&self, call: CallId) -> Option<AsyncCall>
        ensures { result ≡ find_async call self.now.unfinished }
    {
        find_async(self.unfinished.as_slice(), call)
    }

    /// Whether a callback is there to be given.
    pub fn callbacks_pending(&self) -> bool
        ensures { result ≡ has_callbacks self.now }
    {
        !self.finished.is_empty()
    }

    /// A call begins to go on by itself. Where `PENDING_MAX` were not dispatched the answer is that count, and nothing
    /// changes.
    pub fn begin(&mut self, call: AsyncCall) -> Result<(), Count>
        ensures answer { result ≡ begun_answer self.old }
        ensures begun { OnOk result (self.new ≡ with_begun call self.old) }
        ensures unchanged { OnErr result (self.new ≡ self.old) }
    {
        if self.len() == PENDING_MAX {
            return Err(Count {
                count: PENDING_MAX as u32,
            });
        }
        self.unfinished.push_reserved(call);
        Ok(())
    }

    /// The call of that name ends with this outcome, an open that was done with the handle that it has opened. Where
    /// none of that name is under way nothing changes.
    pub fn finish(&mut self, call: CallId, opened: Option<u32>, outcome: Outcome)
        ensures { self.new ≡ ended_in call opened outcome self.old }
    {
        let Some(kept) = self.find(call) else {
            return;
        };
        forget_unfinished(&mut self.unfinished, call);
        let handle = opened.unwrap_or(kept.handle);
        let asked = AsyncCall { handle, ..kept };
        self.finished.push_reserved(EndedCall { asked, outcome });
    }

    /// The call of that name goes, whether it has ended or not.
    pub fn forget(&mut self, call: CallId)
        ensures { self.new ≡ forgotten call self.old }
    {
        forget_unfinished(&mut self.unfinished, call);
        forget_finished(&mut self.finished, call);
    }

    /// The synchronisations over the handle of that number go, whether they have ended or not.
    pub fn forget_over(&mut self, handle: u32)
        ensures { self.new ≡ forgotten_over handle self.old }
    {
        forget_unfinished_over(&mut self.unfinished, handle);
        forget_finished_over(&mut self.finished, handle);
    }

    /// All of them go.
    pub fn clear(&mut self)
        ensures { self.new ≡ no_pending }
    {
        self.unfinished.clear();
        self.finished.clear();
    }

    /// How many callbacks a dispatch with this flag gives, and how many it leaves. `InvalidParam` where there is no
    /// such flag.
    pub fn given(&self, flag: u32) -> Result<Given, AisError>
        ensures { result ≡ given_answer flag self.now }
    {
        let ended = self.finished.len() as u32;
        let given = match flag {
            DISPATCH_ONE => ended.min(1),
            DISPATCH_ALL => ended,
            _ => return Err(AisError::InvalidParam),
        };
        Ok(Given {
            given,
            left: ended - given,
        })
    }

    /// Gives callbacks, in the order in which the calls have ended: one, or all that are there. They go. `InvalidParam`
    /// where there is no such flag, and then none is given, and nothing changes.
    pub fn dispatch<C: Callbacks>(&mut self, flag: u32, to: &mut C) -> Result<Given, AisError>
        ensures answer { result ≡ given_answer flag self.old }
        ensures called { FoldsTo C.called to.old (given_by flag self.old) to.new }
        ensures dispatched { self.new ≡ dispatched (given_number flag self.old) self.old }

        // Where there is no such flag: the client is not told of any call, and all of them stay.
        ensures not_called { OnErr result (to.new ≡ to.old) }
        ensures unchanged { OnErr result (self.new ≡ self.old) }
    {
        let given = self.given(flag)?;
        let count = given.given as usize;
        call_each(&self.finished.as_slice()[..count], to);
        self.give(count);
        Ok(given)
    }

    /// So many of the calls that have ended are dispatched, the first ones.
    pub fn give(&mut self, count: usize)
        requires { count ≤ length self.old.finished }
        ensures { self.new ≡ dispatched count self.old }
    {
        drop_first(&mut self.finished, count);
    }

    /// An equal one, with as much room.
    pub fn copy(&self, alloc: Global) -> Result<Pending, AllocError>
        ensures { IfOk result (λ copy. copy ≡ self.now) }
    {
        Ok(Pending {
            unfinished: copy_of(alloc, self.unfinished.as_slice())?,
            finished: copy_of(alloc, self.finished.as_slice())?,
        })
    }
}
