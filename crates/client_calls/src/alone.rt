//! The asynchronous calls of one client that go on by themselves.
ghost use Rattle.std.specs.Prelude.{◌≡◌, ◌∷◌, ◌++◌, filter, Some, None, [], IfNone, IfOk, IfSome, OnOk, OnErr, IsSome, MatchOption};
ghost use Rattle.std.specs.Borrow.{sem};
ghost use Rattle.cluster_record.specs.Calls.{same_actor};
ghost use Rattle.client_calls.specs.Abandoning.{calls_left};
ghost use Rattle.client_calls.specs.AloneLending.{LendsAlone};
ghost use Rattle.cluster_record.specs.Failing.{goes_with_node};
ghost use Rattle.ckpt_types.specs.declared.identities.ActorName.TheVariants.{Client};
ghost use Rattle.call_dispatch.specs.PendingCalls.{find_async};
ghost use Rattle.ckpt_machine.specs.After.{goes_with, is_over};
ghost use Rattle.client_calls.specs.AlonePlaces.{found_alone, has_call, has_other, meets, without_met, IsPlaceOf};

use crate::abandoning::is_on;
use crate::copying::copy_of_places;
use crate::in_hand::InHand;
use call_dispatch::Pending;
use ckpt_types::{ActorName, AsyncKind, CallId, NodeId};
use cluster_record::Record;
use std::alloc::{AllocError, Global};
use std::marker::Model;

/// The asynchronous calls of one client that go on by themselves, in the order of their beginning.
#[derive(Drop)]
pub struct AloneCalls {
    list: Vec<Option<InHand>>,
}

impl Model for AloneCalls {
    ghost use Rattle.std.specs.Prelude.{List, Option};
    ghost use Rattle.client_calls.specs.declared.in_hand.InHand.{InHand};

    ghost Value = { List (Option InHand) };

    ghost view = { λ calls. calls.list.items };
}

impl AloneCalls {
    /// There is none.
    pub fn new(alloc: Global) -> AloneCalls
        ensures { result ≡ [] }
    {
        AloneCalls {
            list: Vec::new(alloc),
        }
    }

    /// Equal calls in the same order.
    pub fn copy(&self, alloc: Global) -> Result<AloneCalls, AllocError>
        ensures { IfOk result (λ copy. copy ≡ self.now) }
    {
        Ok(AloneCalls {
            list: copy_of_places(alloc, self.list.as_slice())?,
        })
    }

    /// The call of that name.
    pub fn find(&self, call: CallId) -> Option<&InHand>
        ensures { MatchOption result (found_alone call self.now ≡ None) (λ hand. found_alone call self.now ≡ Some hand.now) }
    {
        find_alone(self.list.as_slice(), call)
    }

    /// The place of a call that is there.
    pub fn at(&mut self, call: CallId) -> &mut Option<InHand>
        requires { IsSome (found_alone call self.old) }
        ensures* lends { sem 𝓛 (LendsAlone self.entry call result) }
        ensures value { found_alone call self.old ≡ result.now }
    {
        let Some(place) = place_alone(self.list.as_slice(), call) else {
            unreachable!()
        };
        &mut self.list[place]
    }

    /// One more goes on by itself.
    pub fn add(&mut self, hand: InHand) -> Result<(), AllocError>
        ensures ok { OnOk result (self.new ≡ self.old ++ Some hand ∷ []) }
        ensures err { OnErr result (self.new ≡ self.old) }
    {
        self.list.push(Some(hand))?;
        Ok(())
    }

    /// The call of that name goes.
    pub fn forget(&mut self, call: CallId)
        ensures { self.new ≡ filter (has_other call) self.old }
    {
        self.list.retain(|place| has_other(place, call));
    }

    /// All go.
    pub fn clear(&mut self)
        ensures { self.new ≡ [] }
    {
        self.list.clear();
    }

    /// These are the calls of the client of that number: where it is live on the node, all go. It takes no memory.
    pub fn cut_off(&mut self, cluster: &Record, client: u8, node: NodeId)
        ensures { self.new ≡ calls_left (goes_with_node cluster.now node) client self.old }
    {
        if is_on(cluster, client, node) {
            self.list.clear();
        }
    }

    /// The synchronisations of this client over a handle that is closed, if one is, go.
    pub fn forget_over(&mut self, c: u8, handle: Option<u32>, pending: &Pending)
        ensures { self.new ≡ without_met (λ v. goes_with handle (Client c) pending.now v) self.old }
    {
        self.list
            .retain(|place| !goes_with(place, c, handle, pending));
    }
}

// Whether a place has this call.
fn has_call(place: &Option<InHand>, call: CallId) -> bool
    ensures { result ≡ has_call call place.now }
{
    match place {
        None => false,
        Some(hand) => hand.call == call,
    }
}

// Whether a place has another call.
fn has_other(place: &Option<InHand>, call: CallId) -> bool
    ensures { result ≡ has_other call place.now }
{
    match place {
        None => false,
        Some(hand) => hand.call != call,
    }
}

// Whether a place has an asynchronous synchronisation of this client over the handle that is closed, if one is.
fn goes_with(place: &Option<InHand>, c: u8, handle: Option<u32>, pending: &Pending) -> bool
    ensures { result ≡ meets (λ v. goes_with handle (Client c) pending.now v) place.now }
{
    let Some(handle) = handle else {
        return false;
    };
    let Some(hand) = place else {
        return false;
    };
    is_client(hand.call.actor, c) && is_over(pending, hand.call, handle)
}

// Whether the actor is this client.
fn is_client(actor: ActorName, c: u8) -> bool
    ensures { result ≡ same_actor actor (Client c) }
{
    match actor {
        ActorName::Client(client) => client == c,
        ActorName::Node(_) => false,
    }
}

// Whether a call is kept as a synchronisation under way over the handle of that number.
fn is_over(pending: &Pending, call: CallId, handle: u32) -> bool
    ensures { result ≡ is_over handle (find_async call pending.now.unfinished) }
{
    match pending.find(call) {
        None => false,
        Some(kept) => match kept.kind {
            AsyncKind::Sync => kept.handle == handle,
            AsyncKind::Open(_) => false,
        },
    }
}

// The asynchronous call of that name.
fn find_alone(list: &[Option<InHand>], call: CallId) -> Option<&InHand>
    ensures { MatchOption result (found_alone call list.now ≡ None) (λ hand. found_alone call list.now ≡ Some hand.now) }
{
    for place in list {
        if has_call(place, call) {
            return place.as_ref();
        }
    }
    None
}

// The place of the asynchronous call of that name.
fn place_alone(list: &[Option<InHand>], call: CallId) -> Option<usize>
    ensures found { IfSome result (IsPlaceOf call list.now) }
    ensures absent { IfNone result (found_alone call list.now ≡ None) }
{
    for (place, hand) in list.iter().enumerate() {
        if has_call(hand, call) {
            return Some(place);
        }
    }
    None
}
