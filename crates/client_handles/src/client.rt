//! One client: its callbacks, its handles, its iterations and its places.
ghost use Rattle.std.specs.Prelude.{◌≡◌, ◌<◌, IfOk, OnOk, OnErr, IsSome, IsTrue};
ghost use Rattle.ckpt_types.specs.Limits.{places_max};
ghost use Rattle.client_handles.specs.ClientState.{handle_numbered, named_handle, handle_count, has_handle_room, has_handle_numbers, new_client, registered, taken, taken_number, released, bound, opened_at, dropped, emptied, IsValid};
ghost use Rattle.client_handles.specs.ClientState.{iterated_handle, kept_iteration, IsLent, IsNotLent, is_lent, has_iteration_room, has_iteration_numbers, added, added_answer, lent, returned, ended, ended_answer};

use crate::begun::{
    BegunIteration, copy_of_begun, end_all, end_over, handle_over, keep, out_of, place_of,
    take_kept,
};
use crate::handle_view::HandleView;
use crate::kept::{Bound, copy_of, handle_of, handle_under, key_of, no_places, number_at, set_at};
use ckpt_types::{
    AisError, CallbackSet, CkptId, Count, HANDLES_MAX, ITERATIONS_MAX, OpenFlags, PLACES_MAX,
};
use section_iter::Iteration;
use slab::Slab;
use std::alloc::{AllocError, Global};
use std::marker::Model;

/// What one client keeps: its open handles, the iterations over them, and the places that stand for both.
#[derive(Drop)]
pub struct Client {
    callbacks: CallbackSet,
    /// The number of the handle last taken, or 0.
    last_number: u32,
    handles: Slab<HandleView>,
    /// To which handle each place was set last. That handle may be closed since.
    places: [Option<Bound>; PLACES_MAX],
    /// The number of the iteration last begun, or 0.
    last_iteration: u32,
    /// The iterations, in the order of their beginning.
    iterations: Vec<BegunIteration>,
    /// The number of the iteration to which each place was set last, or 0. It may have ended since.
    iteration_places: [u32; PLACES_MAX],
}

impl Model for Client {
    ghost use Rattle.client_handles.specs.ClientState.{ClientState};

    ghost Value = { ClientState };

    ghost use Rattle.client_handles.specs.Client.{client_shown, IsSound};

    ghost view = { client_shown };

    ghost invariant = { IsSound };
}

impl Client {
    /// A client with no handle, with room for `HANDLES_MAX` handles and `ITERATIONS_MAX` iterations. Of the
    /// later calls only `copy` takes memory.
    pub fn new(alloc: Global, callbacks: CallbackSet) -> Result<Client, AllocError>
        ensures { IfOk result (λ client. client ≡ new_client callbacks) }
    {
        Ok(Client {
            callbacks,
            last_number: 0,
            handles: Slab::with_capacity(alloc, HANDLES_MAX)?,
            places: no_places(),
            last_iteration: 0,
            iterations: Vec::with_capacity(alloc, ITERATIONS_MAX)?,
            iteration_places: [0; PLACES_MAX],
        })
    }

    /// The callbacks that the client registered.
    pub fn callbacks(&self) -> CallbackSet
        ensures { result ≡ self.now.callbacks }
    {
        self.callbacks
    }

    /// The client becomes live with these callbacks; what it kept stays.
    pub fn register(&mut self, callbacks: CallbackSet)
        ensures { self.new ≡ registered callbacks self.old }
    {
        self.callbacks = callbacks;
    }

    /// The handle for which a place stands. `BadHandle` where there is no such place, it was never set, or
    /// the handle was closed.
    pub fn handle(&self, place: u8) -> Result<HandleView, AisError>
        ensures answer { result ≡ named_handle place self.now }
        ensures valid { IsValid self.now }
    {
        let Some(set) = set_at(&self.places, place) else {
            return Err(AisError::BadHandle);
        };
        match handle_under(&self.handles, set.key, set.number) {
            Some(handle) => Ok(handle),
            None => Err(AisError::BadHandle),
        }
    }

    /// The open handle of that number.
    pub fn handle_numbered(&self, handle: u32) -> Option<HandleView>
        ensures { result ≡ handle_numbered handle self.now.handles }
    {
        handle_of(&self.handles, handle)
    }

    /// How many handles are open.
    pub fn handles_open(&self) -> usize
        ensures count { result ≡ handle_count self.now }
        ensures valid { IsValid self.now }
    {
        self.handles.len()
    }

    /// The number of the handle taken last, or 0.
    pub fn last_handle(&self) -> u32
        ensures { result ≡ self.now.last_number }
    {
        self.last_number
    }

    /// Whether one handle more may be open.
    pub fn handle_room(&self) -> bool
        ensures room { result ≡ has_handle_room self.now }
        ensures valid { IsValid self.now }
    {
        self.handles.len() < HANDLES_MAX
    }

    /// Whether one handle more has a number: none is given twice.
    pub fn handle_numbers_left(&self) -> bool
        ensures { result ≡ has_handle_numbers self.now }
    {
        self.last_number < u32::MAX
    }

    /// Whether one iteration more may be begun.
    pub fn iteration_room(&self) -> bool
        ensures { result ≡ has_iteration_room self.now }
    {
        self.iterations.len() < ITERATIONS_MAX
    }

    /// Whether one iteration more has a number: none is given twice.
    pub fn iteration_numbers_left(&self) -> bool
        ensures { result ≡ has_iteration_numbers self.now }
    {
        self.last_iteration < u32::MAX
    }

    /// Opens one handle more, for which no place stands yet, and tells its number, the next one. Where
    /// `HANDLES_MAX` are open the answer is that count, and nothing changes.
    pub fn take_handle(
        &mut self,
        id: CkptId,
        flags: OpenFlags,
        creation_flags: u32,
    ) -> Result<u32, Count>
        requires { IsTrue (has_handle_numbers self.old) }
        ensures answer { result ≡ taken_number self.old }
        ensures taken { OnOk result (self.new ≡ taken id flags creation_flags self.old) }
        ensures opened { IfOk result (λ number. IsSome (handle_numbered number self.new.handles)) }
        ensures unchanged { OnErr result (self.new ≡ self.old) }
    {
        if !self.handle_room() {
            return Err(Count {
                count: HANDLES_MAX as u32,
            });
        }
        self.last_number += 1;
        self.handles.insert_reserved(HandleView {
            id,
            flags,
            creation_flags,
            handle: self.last_number,
        });
        Ok(self.last_number)
    }

    /// Closes the handle of that number, and ends the iterations over it, also those that are lent. Where
    /// none has the number nothing changes.
    pub fn release(&mut self, handle: u32)
        ensures { self.new ≡ released handle self.old }
    {
        if let Some(key) = key_of(&self.handles, handle) {
            self.handles.remove(key);
            end_over(&mut self.iterations, handle);
        }
    }

    /// Lets a place stand for an open handle. Another handle for which it stood before stays open.
    pub fn bind(&mut self, place: u8, handle: u32)
        requires place { place < places_max }
        requires opened { IsSome (handle_numbered handle self.old.handles) }
        ensures { self.new ≡ bound place handle self.old }
    {
        let Some(key) = key_of(&self.handles, handle) else {
            unreachable!()
        };
        self.places[place as usize] = Some(Bound {
            key,
            number: handle,
        });
    }

    /// Lets a place stand for the handle of that number, where it is open still, as a dispatch does with what
    /// an open gave. Where none has the number, or there is no such place, nothing changes.
    pub fn bind_open(&mut self, place: u8, handle: u32)
        ensures { self.new ≡ opened_at place handle self.old }
    {
        if (place as usize) < PLACES_MAX && self.handle_numbered(handle).is_some() {
            self.bind(place, handle);
        }
    }

    /// Closes the handle for which a place stands, tells it, and ends the iterations over it. `BadHandle`
    /// where it stands for none, and then nothing changes.
    pub fn drop_handle(&mut self, place: u8) -> Result<HandleView, AisError>
        ensures answer { result ≡ named_handle place self.old }
        ensures dropped { self.new ≡ dropped place self.old }
    {
        let handle = self.handle(place)?;
        self.release(handle.handle);
        Ok(handle)
    }

    /// The handle over which the iteration goes for which a place stands. `BadHandle` where there is no such
    /// place, it was never set, or the iteration has ended.
    pub fn iteration_handle(&self, place: u8) -> Result<HandleView, AisError>
        ensures answer { result ≡ iterated_handle place self.now }
        ensures valid { IsValid self.now }
    {
        let number = number_at(&self.iteration_places, place);
        let Some(handle) = handle_over(self.iterations.as_slice(), number) else {
            return Err(AisError::BadHandle);
        };
        let Some(opened) = handle_of(&self.handles, handle) else {
            unreachable!()
        };
        Ok(opened)
    }

    /// Whether a place stands for an iteration that is lent.
    pub fn is_lent(&self, place: u8) -> bool
        ensures { result ≡ is_lent place self.now }
    {
        let number = number_at(&self.iteration_places, place);
        out_of(self.iterations.as_slice(), number)
    }

    /// Lends the iteration for which a place stands, and which is not lent. The place goes on to stand for
    /// it. `BadHandle` where the place stands for none, and then nothing changes.
    pub fn lend_iteration(&mut self, place: u8) -> Result<Iteration, AisError>
        requires { IsNotLent place self.old }
        ensures answer { result ≡ kept_iteration place self.old }
        ensures lent { self.new ≡ lent place self.old }
        ensures unchanged { OnErr result (self.new ≡ self.old) }
        ensures valid { IsValid self.old }
    {
        let number = number_at(&self.iteration_places, place);
        let Some(at) = place_of(self.iterations.as_slice(), number) else {
            return Err(AisError::BadHandle);
        };
        let Some(iteration) = take_kept(&mut self.iterations, at) else {
            unreachable!()
        };
        Ok(iteration)
    }

    /// Takes back the iteration for which a place stands, and which is lent.
    pub fn return_iteration(&mut self, place: u8, iteration: Iteration)
        requires place { place < places_max }
        requires lent { IsLent place self.old }
        ensures { self.new ≡ returned place iteration self.old }
    {
        let number = self.iteration_places[place as usize];
        let Some(at) = place_of(self.iterations.as_slice(), number) else {
            unreachable!()
        };
        keep(&mut self.iterations, at, iteration);
    }

    /// Begins one iteration more, over an open handle, and lets a place stand for it. Another iteration for
    /// which it stood before goes on. Where `ITERATIONS_MAX` were begun the answer is that count, and nothing
    /// changes.
    pub fn add_iteration(
        &mut self,
        place: u8,
        handle: u32,
        iteration: Iteration,
    ) -> Result<(), Count>
        requires place { place < places_max }
        requires opened { IsSome (handle_numbered handle self.old.handles) }
        requires number { IsTrue (has_iteration_numbers self.old) }
        ensures answer { result ≡ added_answer self.old }
        ensures added { OnOk result (self.new ≡ added place handle iteration self.old) }
        ensures unchanged { OnErr result (self.new ≡ self.old) }
    {
        if !self.iteration_room() {
            return Err(Count {
                count: ITERATIONS_MAX as u32,
            });
        }
        self.last_iteration += 1;
        self.iterations.push_reserved(BegunIteration {
            number: self.last_iteration,
            handle,
            kept: Some(iteration),
        });
        self.iteration_places[place as usize] = self.last_iteration;
        Ok(())
    }

    /// Ends the iteration for which a place stands. `BadHandle` where it stands for none, and then nothing
    /// changes.
    pub fn end_iteration(&mut self, place: u8) -> Result<(), AisError>
        ensures answer { result ≡ ended_answer place self.old }
        ensures ended { self.new ≡ ended place self.old }
        ensures unchanged { OnErr result (self.new ≡ self.old) }
    {
        let number = number_at(&self.iteration_places, place);
        let Some(at) = place_of(self.iterations.as_slice(), number) else {
            return Err(AisError::BadHandle);
        };
        self.iterations.remove(at);
        Ok(())
    }

    /// Closes all handles, and ends all iterations, also those that are lent. The places stay set, and so
    /// stand for none; no number is given again. It takes no memory.
    pub fn close_all(&mut self)
        ensures { self.new ≡ emptied self.old }
    {
        self.handles.clear();
        end_all(&mut self.iterations);
    }

    /// An equal client, with as much room. An iteration that is lent is lent in the copy, too.
    pub fn copy(&self, alloc: Global) -> Result<Client, AllocError>
        ensures { IfOk result (λ copy. copy ≡ self.now) }
    {
        Ok(Client {
            callbacks: self.callbacks,
            last_number: self.last_number,
            handles: copy_of(&self.handles, HANDLES_MAX)?,
            places: self.places,
            last_iteration: self.last_iteration,
            iterations: copy_of_begun(alloc, self.iterations.as_slice())?,
            iteration_places: self.iteration_places,
        })
    }
}
