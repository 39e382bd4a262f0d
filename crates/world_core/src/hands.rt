//! The calls in hand.
ghost use Rattle.std.specs.Prelude.{◌≡◌, ◌<◌, length, map, replicate, Some, None, [], IfOk, OnOk, OnErr, slice_get, is_some, IsSome, MatchOption};
ghost use Rattle.std.specs.Borrow.{sem};
ghost use Rattle.ckpt_types.specs.Limits.{client_numbers, nodes_max};
ghost use Rattle.cluster_record.specs.Calls.{client_of, IsClient};
ghost use Rattle.world_core.specs.HandLending.{LendsCopy, LendsHand};
ghost use Rattle.ckpt_types.specs.declared.identities.ActorName.TheVariants.{Client, Node};
ghost use Rattle.ckpt_types.specs.declared.identities.Who.TheVariants.{Actor, Call};
ghost use Rattle.client_calls.specs.Names.{IsClientName};
ghost use Rattle.cluster_record.specs.Places.{or_none};
ghost use Rattle.ckpt_machine.specs.After.{goes_with};
ghost use Rattle.client_calls.specs.Abandoning.{calls_left, place_left};
ghost use Rattle.cluster_record.specs.Failing.{goes_with_node};
ghost use Rattle.ckpt_machine.specs.ByNumber.{each_by_number};
ghost use Rattle.world_core.specs.Failing.{hands_left};
ghost use Rattle.world_core.specs.HandsState.{alone_in, hand_at, with_alone, without_all, without_call, without_those, HasAlone};
ghost use Rattle.client_calls.specs.AlonePlaces.{found_alone};
ghost use Rattle.world_core.specs.TakenApart.{busy_at};

use call_dispatch::Pending;
use ckpt_types::{ActorName, CLIENT_NUMBERS, CallId, NODES_MAX, NodeId, Op, Who};
use client_calls::{
    AloneCalls, CopyHand, InHand, copy_of_places, copy_unless_abandoned, unless_abandoned,
};
use cluster_record::{Record, number_of};
use std::alloc::{AllocError, Global};
use std::marker::Model;

/// The call in hand of each client, c0 to c99, the asynchronous calls that go on by themselves, and the copying of each
/// node.
#[derive(Drop)]
pub struct Hands {
    /// By client, a place for each.
    clients: Vec<Option<InHand>>,
    /// By client, its asynchronous calls.
    alone: Vec<AloneCalls>,
    /// By node, its copying.
    nodes: [Option<CopyHand>; NODES_MAX],
}

impl Model for Hands {
    ghost use Rattle.world_core.specs.HandsState.{HandsState};

    ghost Value = { HandsState };

    ghost use Rattle.world_core.specs.HandsView.{hands_shown, HasEachPlace};

    ghost view = { hands_shown };

    ghost invariant = { HasEachPlace };
}

impl Hands {
    /// No call is in hand. The places of all clients are there from here on.
    pub fn new(alloc: Global) -> Result<Hands, AllocError>
        ensures clients { IfOk result (λ hands. hands.clients ≡ replicate client_numbers None) }
        ensures alone { IfOk result (λ hands. hands.alone ≡ replicate client_numbers []) }
        ensures nodes { IfOk result (λ hands. hands.nodes ≡ replicate nodes_max None) }
    {
        Ok(Hands {
            clients: new_places(alloc)?,
            alone: new_lists(alloc)?,
            nodes: [None, None, None, None, None, None, None, None],
        })
    }

    /// Equal calls, each in the same place.
    pub fn copy(&self, alloc: Global) -> Result<Hands, AllocError>
        ensures { IfOk result (λ copy. copy ≡ self.now) }
    {
        Ok(Hands {
            clients: copy_of_places(alloc, self.clients.as_slice())?,
            alone: copy_lists(alloc, self.alone.as_slice())?,
            nodes: copy_copyings(alloc, &self.nodes)?,
        })
    }

    /// By client, where it has a call in hand, the node that this is about.
    pub fn busy(&self, alloc: Global, cluster: &Record) -> Result<Vec<Option<NodeId>>, AllocError>
        ensures { IfOk result (λ busy. busy.items ≡ map (busy_at cluster.now) self.now.clients) }
    {
        busy_of(alloc, self.clients.as_slice(), cluster)
    }

    /// Whether a call is in hand under a name.
    #[inline(always)]
    pub fn has(&self, who: Who) -> bool
        ensures { result ≡ is_some (hand_at self.now who) }
    {
        match who {
            Who::Actor(ActorName::Client(c)) => {
                find(self.clients.as_slice(), c as usize).is_some()
            }
            Who::Actor(ActorName::Node(r)) => self.of_node(r).is_some(),
            Who::Call(call) => self.of_call(call).is_some(),
        }
    }

    /// The asynchronous call of that name.
    #[inline(always)]
    pub fn of_call(&self, call: CallId) -> Option<&InHand>
        ensures { MatchOption result (hand_at self.now (Call call) ≡ None) (λ hand. hand_at self.now (Call call) ≡ Some hand.now) }
    {
        find_kept(self.alone.as_slice(), call)
    }

    /// The copying of a node.
    pub fn of_node(&self, r: NodeId) -> Option<&CopyHand>
        ensures { MatchOption result (hand_at self.now (Actor (Node r)) ≡ None) (λ hand. hand_at self.now (Actor (Node r)) ≡ Some hand.now) }
    {
        find_copy(&self.nodes, r as usize)
    }

    /// The place of a node, for its copying.
    pub fn at_node(&mut self, r: NodeId) -> &mut Option<CopyHand>
        requires { r < nodes_max }
        ensures* lends { sem 𝓛 (LendsCopy self.entry (Actor (Node r)) result) }
        ensures value { hand_at self.old (Actor (Node r)) ≡ result.now }
        ensures there { r < length self.old.nodes }
    {
        &mut self.nodes[r as usize]
    }

    /// The call in hand of a client.
    #[inline(always)]
    pub fn of_client(&self, c: u8) -> Option<&InHand>
        requires { c < client_numbers }
        ensures { MatchOption result (hand_at self.now (Actor (Client c)) ≡ None) (λ hand. hand_at self.now (Actor (Client c)) ≡ Some hand.now) }
    {
        self.clients[c as usize].as_ref()
    }

    /// The place of a client, for its call in hand.
    #[inline(always)]
    pub fn at_client(&mut self, c: u8) -> &mut Option<InHand>
        requires { c < client_numbers }
        ensures* lends { sem 𝓛 (LendsHand self.entry (Actor (Client c)) result) }
        ensures value { hand_at self.old (Actor (Client c)) ≡ result.now }
        ensures there { c < length self.old.clients }
    {
        &mut self.clients[c as usize]
    }

    /// The place of a client's call that is in hand.
    #[inline(always)]
    pub fn at(&mut self, who: Who) -> &mut Option<InHand>
        requires client { IsClientName who }
        requires there { IsSome (hand_at self.old who) }
        ensures* lends { sem 𝓛 (LendsHand self.entry who result) }
        ensures value { hand_at self.old who ≡ result.now }
    {
        match who {
            Who::Actor(ActorName::Client(c)) => &mut self.clients[c as usize],
            Who::Actor(ActorName::Node(_)) => unreachable!(),
            Who::Call(call) => {
                let ActorName::Client(c) = call.actor else {
                    unreachable!()
                };
                self.alone[c as usize].at(call)
            }
        }
    }

    /// An asynchronous call goes on by itself.
    pub fn add(&mut self, hand: InHand) -> Result<(), AllocError>
        requires { IsClient hand.call.actor }
        ensures ok { OnOk result (self.new ≡ with_alone hand self.old) }
        ensures err { OnErr result (self.new ≡ self.old) }
        ensures there { HasAlone hand.call.actor self.old }
    {
        let ActorName::Client(c) = hand.call.actor else {
            unreachable!()
        };
        self.alone[c as usize].add(hand)
    }

    /// An asynchronous call is in hand no more.
    pub fn forget(&mut self, call: CallId)
        requires { client_of call < client_numbers }
        ensures { self.new ≡ without_call call self.old }
    {
        let ActorName::Client(c) = call.actor else {
            return;
        };
        self.alone[c as usize].forget(call);
    }

    /// All asynchronous calls of a client are in hand no more.
    pub fn forget_of(&mut self, c: u8)
        requires { c < client_numbers }
        ensures { self.new ≡ without_all c self.old }
    {
        self.alone[c as usize].clear();
    }

    /// The asynchronous synchronisations of a client over a handle that is closed, if one is, are in hand no more.
    pub fn forget_over(&mut self, c: u8, handle: Option<u32>, pending: &Pending)
        requires { c < client_numbers }
        ensures { self.new ≡ without_those c (λ v. goes_with handle (Client c) pending.now v) self.old }
    {
        self.alone[c as usize].forget_over(c, handle, pending);
    }

    /// The calls that the failure of a node abandons are in hand no more. It takes no memory.
    pub fn cut_off(&mut self, cluster: &Record, node: NodeId)
        ensures { self.new ≡ hands_left cluster.now node self.old }
    {
        leave_places(self.clients.as_mut_slice(), cluster, node);
        leave_calls(self.alone.as_mut_slice(), cluster, node);
        leave_copies(&mut self.nodes, cluster, node);
    }
}

fn leave_places(places: &mut [Option<InHand>], cluster: &Record, node: NodeId)
    ensures { places.new ≡ map (place_left cluster.now node) places.old }
{
    for place in places.iter_mut() {
        unless_abandoned(place, cluster, node);
    }
}

fn leave_copies(places: &mut [Option<CopyHand>], cluster: &Record, node: NodeId)
    ensures { places.new ≡ map (place_left cluster.now node) places.old }
{
    for place in places.iter_mut() {
        copy_unless_abandoned(place, cluster, node);
    }
}

fn leave_calls(lists: &mut [AloneCalls], cluster: &Record, node: NodeId)
    requires { length lists.old ≡ client_numbers }
    ensures { lists.new ≡ each_by_number (calls_left (goes_with_node cluster.now node)) 0 lists.old }
{
    for c in 0..CLIENT_NUMBERS as u8 {
        lists[c as usize].cut_off(cluster, c, node);
    }
}

fn new_places(alloc: Global) -> Result<Vec<Option<InHand>>, AllocError>
    ensures { IfOk result (λ places. places.items ≡ replicate client_numbers None) }
{
    let mut places = Vec::with_capacity(alloc, CLIENT_NUMBERS)?;
    for _ in 0..CLIENT_NUMBERS {
        places.push(None)?;
    }
    Ok(places)
}

fn new_lists(alloc: Global) -> Result<Vec<AloneCalls>, AllocError>
    ensures { IfOk result (λ lists. lists.items ≡ replicate client_numbers []) }
{
    let mut lists = Vec::with_capacity(alloc, CLIENT_NUMBERS)?;
    for _n in 0..CLIENT_NUMBERS {
        lists.push_reserved(AloneCalls::new(alloc));
    }
    Ok(lists)
}

fn copy_lists(alloc: Global, lists: &[AloneCalls]) -> Result<Vec<AloneCalls>, AllocError>
    ensures { IfOk result (λ copies. copies.items ≡ lists.now) }
{
    let mut copies = Vec::with_capacity(alloc, lists.len())?;
    for calls in lists {
        copies.push_reserved(calls.copy(alloc)?);
    }
    Ok(copies)
}

fn copy_copyings(
    alloc: Global,
    copyings: &[Option<CopyHand>; NODES_MAX],
) -> Result<[Option<CopyHand>; NODES_MAX], AllocError>
    ensures { IfOk result (λ copies. copies ≡ copyings.now) }
{
    let mut copies = [None, None, None, None, None, None, None, None];
    fill_copyings(alloc, copyings, &mut copies)?;
    Ok(copies)
}

// Each place gets an equal copying, where there is one.
fn fill_copyings(
    alloc: Global,
    copyings: &[Option<CopyHand>],
    copies: &mut [Option<CopyHand>],
) -> Result<(), AllocError>
    requires { length copies.old ≡ length copyings.now }
    ensures { OnOk result (copies.new ≡ copyings.now) }
{
    for (r, copying) in copyings.iter().enumerate() {
        copies[r] = copy_copying(alloc, copying)?;
    }
    Ok(())
}

fn copy_copying(alloc: Global, copying: &Option<CopyHand>) -> Result<Option<CopyHand>, AllocError>
    ensures { IfOk result (λ copy. copy ≡ copying.now) }
{
    match copying {
        None => Ok(None),
        Some(hand) => Ok(Some(hand.copy(alloc)?)),
    }
}

fn busy_of(
    alloc: Global,
    places: &[Option<InHand>],
    cluster: &Record,
) -> Result<Vec<Option<NodeId>>, AllocError>
    ensures { IfOk result (λ busy. busy.items ≡ map (busy_at cluster.now) places.now) }
{
    places
        .iter()
        .map(|place| busy_at(place, cluster))
        .collect(alloc)
}

// Of a call in hand, the node that it is about: its client's, or that which an Initialize names.
fn busy_at(place: &Option<InHand>, cluster: &Record) -> Option<NodeId>
    ensures { result ≡ busy_at cluster.now place.now }
{
    let Some(hand) = place else {
        return None;
    };
    match &hand.op {
        Op::Client(node, _, _) => Some(*node),
        _ => Some(cluster.home_of(number_of(&hand.call.actor))),
    }
}

fn find(list: &[Option<InHand>], c: usize) -> Option<&InHand>
    ensures { MatchOption result (or_none (slice_get list.now c) ≡ None) (λ hand. or_none (slice_get list.now c) ≡ Some hand.now) }
{
    match list.get(c) {
        None => None,
        Some(hand) => hand.as_ref(),
    }
}

fn find_copy(list: &[Option<CopyHand>], r: usize) -> Option<&CopyHand>
    ensures { MatchOption result (or_none (slice_get list.now r) ≡ None) (λ hand. or_none (slice_get list.now r) ≡ Some hand.now) }
{
    match list.get(r) {
        None => None,
        Some(hand) => hand.as_ref(),
    }
}

// The asynchronous call of that name, among those of each client; no node has one.
fn find_kept(lists: &[AloneCalls], call: CallId) -> Option<&InHand>
    ensures { MatchOption result (found_alone call (alone_in lists.now call.actor) ≡ None) (λ hand. found_alone call (alone_in lists.now call.actor) ≡ Some hand.now) }
{
    let ActorName::Client(c) = call.actor else {
        return None;
    };
    match lists.get(c as usize) {
        None => None,
        Some(calls) => calls.find(call),
    }
}
