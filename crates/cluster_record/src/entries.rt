//! What the record keeps of each checkpoint, what a step makes of it, and when it is due to go.
ghost use Rattle.std.specs.Prelude.{All, ◌≡◌, ◌+◌, ◌-◌, ◌^◌, ◌<◌, ◌≤◌, Some, None, IfSome, IfOk, MatchOption, length, filter, is_some, map, not, ◌&&◌, ◌==◌, remove, slice_get, slice_index, slice_set, vec_capacity};
ghost use Rattle.std.specs.List.{list_any, list_all};
ghost use Rattle.ckpt_types.specs.Limits.{name_max, checkpoints_max, nodes_max};
ghost use Rattle.moment_rules.specs.Times.{is_reached};
ghost use Rattle.cluster_record.specs.Numbers.{may_rise, entry_may_rise};
ghost use Rattle.cluster_record.specs.Changes.{changed_by, CanChange};
ghost use Rattle.cluster_record.specs.Makings.{makings_of};
ghost use Rattle.cluster_record.specs.Counts.{count_told};
ghost use Rattle.cluster_record.specs.Failing.{survives, unheld_by, entry_failed};
ghost use Rattle.cluster_record.specs.Kept.{HasTimes};
ghost use Rattle.cluster_record.specs.NamesOf.{stays_by, without_name, without_gone};
ghost use Rattle.cluster_record.specs.Places.{change_key, place_key};
ghost use Rattle.cluster_record.specs.RecordState.{no_nodes, no_references, identity_of, entry_of, is_name, first_active, first_complete, retained_until, stays, has_references, referred, joined, opened_with, made_with, idle_from, unreferred, released_all, is_call_of, can_be_held, with_hold, can_lead, is_active, with_active};

use crate::counts::Counts;
use crate::joining::complete_with;
use crate::leaders::next_active;
use crate::placement::{adds, incarnation_at, is_collocated, targets};
use ckpt_types::{
    ActorName, Bytes, CHECKPOINTS_MAX, CLIENT_NUMBERS, CallId, CkptId, CreationAttributes,
    Incarnation, Moment, NODES_MAX, NodeId, SectionId,
};
use moment_rules::{add_until, reached};
use name_table::Names;
use std::alloc::{AllocError, Global};

/// A checkpoint's name, kept in place: it has at most as many bytes as an identifier of a section.
pub type KeptName = SectionId;

/// What the record keeps of a checkpoint.
#[derive(Drop)]
pub struct Entry {
    /// Its number.
    pub identity: CkptId,
    /// Its name, or none once it is unlinked.
    pub name: Option<KeptName>,
    /// The attributes with which it was made.
    pub attributes: CreationAttributes,
    /// How long it stays after its last close, as it is set now.
    pub retention: i64,
    /// The moment of its `create` step.
    pub made: Moment,
    /// The call that is making it, if one is.
    pub making: Option<CallId>,
    /// By node, the incarnation with which the node is complete, or 0.
    pub complete: [u32; NODES_MAX],
    /// The node that reads go to.
    pub active: Option<NodeId>,
    /// It rises whenever the active changes.
    pub generation: u64,
    /// By client, how often it has the checkpoint open.
    pub references: [u32; CLIENT_NUMBERS],
    /// The moment of the last close.
    pub idle: Moment,
    /// The call that holds the checkpoint, if one does.
    pub hold: Option<CallId>,
}

impl Entry {
    // One reference of the client more.
    fn refer(&mut self, client: u8)
        requires { slice_index self.old.references client < 2 ^ 32 - 1 }
        ensures { self.new ≡ referred client self.old }
    {
        add_one(&mut self.references, client);
    }

    // It is opened from a node: where that adds a replica, it is complete there too.
    fn join(&mut self, up: &[u32; NODES_MAX], opener: NodeId)
        ensures { self.new ≡ joined opener up.now self.old }
    {
        let place = opener as usize;
        if place < NODES_MAX && adds(&self.attributes, opener, &self.complete) {
            self.complete[place] = up[place];
        }
    }

    // A client opens it from a node.
    fn open(&mut self, up: &[u32; NODES_MAX], opener: NodeId, client: u8)
        requires { slice_index self.old.references client < 2 ^ 32 - 1 }
        ensures { self.new ≡ opened_with opener up.now client self.old }
    {
        self.join(up, opener);
        self.refer(client);
    }

    // The making is finished, by an opener on a node.
    fn make(&mut self, up: &[u32; NODES_MAX], opener: NodeId, client: u8)
        requires { slice_index self.old.references client < 2 ^ 32 - 1 }
        ensures { self.new ≡ made_with opener up.now client self.old }
    {
        let complete = targets(&self.attributes, opener, up);
        self.making = None;
        self.complete = complete;
        self.active = first_active(&self.attributes, &complete);
        self.generation = 1;
        self.refer(client);
    }

    // Where nobody has it open now, this was its last close.
    fn idle_from(&mut self, now: Moment)
        ensures { self.new ≡ idle_from now self.old }
    {
        if !self.has_references() {
            self.idle = now;
        }
    }

    // One reference of the client fewer.
    fn release(&mut self, client: u8, now: Moment)
        ensures { self.new ≡ unreferred client now self.old }
    {
        if count_at(&self.references, client) != 0 {
            take_one(&mut self.references, client);
            self.idle_from(now);
        }
    }

    // All references of the client go at once.
    fn release_all(&mut self, client: u8, now: Moment)
        ensures { self.new ≡ released_all client now self.old }
    {
        if count_at(&self.references, client) != 0 {
            take_all(&mut self.references, client);
            self.idle_from(now);
        }
    }

    /// Whether a call can hold it.
    pub(crate) fn can_be_held(&self) -> bool
        ensures { result ≡ can_be_held self.now }
    {
        is_collocated(&self.attributes) && self.active.is_some()
    }

    // A call holds it, where it can be held.
    fn put_on_hold(&mut self, call: CallId)
        ensures { self.new ≡ with_hold call self.old }
    {
        if self.can_be_held() {
            self.hold = Some(call);
        }
    }

    // Whether the node can be its active.
    fn can_lead(&self, node: NodeId) -> bool
        ensures { result ≡ can_lead node self.now }
    {
        is_collocated(&self.attributes) && incarnation_at(&self.complete, node) != 0
    }

    // The node is its active, where it can be, and the hold ends.
    fn set_active(&mut self, node: NodeId)
        requires { self.old.generation < 2 ^ 64 - 1 }
        ensures { self.new ≡ with_active node self.old }
    {
        if !self.can_lead(node) {
            return;
        }
        if !is_active(self.active, node) {
            self.generation += 1;
        }
        self.active = Some(node);
        self.hold = None;
    }

    // No call of the client holds it any more.
    fn end_hold(&mut self, client: u8)
        ensures { self.new ≡ unheld_by client self.old }
    {
        if is_call_of(&self.hold, client) {
            self.hold = None;
        }
    }

    // A node fails: it is complete there no more, and where that was its active, it gets another or none. That is rare,
    // and kept out of line, so that other changes stay short.
    #[inline(never)]
    fn fail(&mut self, node: NodeId, counts: &Counts)
        requires { self.old.generation < 2 ^ 64 - 1 }
        ensures { self.new ≡ entry_failed (count_told counts.now self.old.identity) node self.old }
    {
        let place = node as usize;
        if place < NODES_MAX {
            self.complete[place] = 0;
        }
        if is_active(self.active, node) {
            self.active = next_active(&self.attributes, &self.complete, self.identity, counts);
            self.generation += 1;
        }
    }

    fn change(&mut self, change: Change<'_>)
        requires { CanChange change (Some self.old) }
        ensures { self.new ≡ changed_by change.entry self.old }
    {
        match change {
            Change::Made(up, opener, client) => self.make(&up, opener, client),
            Change::Referred(up, opener, client) => self.open(&up, opener, client),
            Change::Released(client, now) => self.release(client, now),
            Change::Unnamed => self.name = None,
            Change::Retaining(duration) => self.retention = duration,
            Change::OnHold(call) => self.put_on_hold(call),
            Change::Active(node) => self.set_active(node),
            Change::ReleasedAll(client, now) => self.release_all(client, now),
            Change::Unheld(client) => self.end_hold(client),
            Change::Failed(node, counts) => self.fail(node, counts),
            Change::Completed(node, incarnation) => complete_with(self, node, incarnation),
        }
    }

    // One with the same in it.
    pub(crate) fn copy(&self) -> Entry
        ensures { result ≡ self.now }
    {
        Entry {
            identity: self.identity,
            name: self.name,
            attributes: self.attributes,
            retention: self.retention,
            made: self.made,
            making: self.making,
            complete: self.complete,
            active: self.active,
            generation: self.generation,
            references: self.references,
            idle: self.idle,
            hold: self.hold,
        }
    }

    // Whether a client has it open.
    fn has_references(&self) -> bool
        ensures { result ≡ has_references self.now }
    {
        has_some(&self.references)
    }

    // Whether its generation and each count of references can rise.
    pub(crate) fn may_rise(&self) -> bool
        ensures { result ≡ entry_may_rise self.now }
    {
        self.generation < u64::MAX && all_may_rise(&self.references)
    }

    // Whether it has this name.
    pub(crate) fn has_name(&self, name: &Bytes) -> bool
        ensures { result ≡ is_name name.now self.now.name }
    {
        match &self.name {
            None => false,
            Some(own) => own.as_slice() == name.as_slice(),
        }
    }

    // Whether it has a name, and is not past its retention.
    fn is_retained(&self, now: Moment) -> bool
        requires { HasTimes self.now }
        ensures { result ≡ (is_some self.now.name && not (is_reached (retained_until self.now) now)) }
    {
        self.name.is_some() && !reached(add_until(self.idle, self.retention), now)
    }

    // Whether it is in the making, or a node is complete for it.
    fn survives(&self) -> bool
        ensures { result ≡ survives self.now }
    {
        self.making.is_some() || first_complete(&self.complete).is_some()
    }

    // Whether the sweep leaves it. The name is looked at first: what nobody has open has no reference in the whole list.
    fn stays(&self, now: Moment) -> bool
        requires { HasTimes self.now }
        ensures { result ≡ stays now self.now }
    {
        self.is_retained(now) || self.making.is_some() || self.has_references()
    }
}

/// A name as an entry keeps it.
pub(crate) fn kept_name(name: &Bytes) -> Option<KeptName>
    requires { length name.now ≤ name_max }
    ensures { result ≡ Some name.now }
{
    SectionId::from_slice(name.as_slice())
}

pub(crate) fn new_entry(
    call: CallId,
    name: Option<KeptName>,
    attributes: CreationAttributes,
    identity: CkptId,
    now: Moment,
) -> Entry
    ensures { result ≡ record { identity = identity; name = name; attributes = attributes; retention = attributes.retention_duration; made = now; making = Some call; complete = no_nodes; active = None; generation = 1; references = no_references; idle = now; hold = None } }
{
    Entry {
        identity,
        name,
        attributes,
        retention: attributes.retention_duration,
        made: now,
        making: Some(call),
        complete: [0; NODES_MAX],
        active: None,
        generation: 1,
        references: [0; CLIENT_NUMBERS],
        idle: now,
        hold: None,
    }
}

fn add_one(references: &mut [u32; CLIENT_NUMBERS], client: u8)
    requires { slice_index references.old client < 2 ^ 32 - 1 }
    ensures { references.new ≡ slice_set references.old client (slice_index references.old client + 1) }
{
    let place = client as usize;
    if place < CLIENT_NUMBERS {
        references[place] += 1;
    }
}

// How often the client has it open; nobody beyond the last does.
fn count_at(references: &[u32; CLIENT_NUMBERS], client: u8) -> u32
    ensures { result ≡ slice_index references.now client }
{
    let place = client as usize;
    if place < CLIENT_NUMBERS {
        references[place]
    } else {
        0
    }
}

fn take_one(references: &mut [u32; CLIENT_NUMBERS], client: u8)
    ensures { references.new ≡ slice_set references.old client (slice_index references.old client - 1) }
{
    let place = client as usize;
    if place < CLIENT_NUMBERS {
        references[place] = references[place].saturating_sub(1);
    }
}

fn take_all(references: &mut [u32; CLIENT_NUMBERS], client: u8)
    ensures { references.new ≡ slice_set references.old client 0 }
{
    let place = client as usize;
    if place < CLIENT_NUMBERS {
        references[place] = 0;
    }
}

fn has_some(references: &[u32; CLIENT_NUMBERS]) -> bool
    ensures { result ≡ list_any (λ n. not (n == 0)) references.now }
{
    references.iter().any(|n| *n != 0)
}

// Whether none of the numbers is the greatest.
pub(crate) fn all_may_rise(numbers: &[u32]) -> bool
    ensures { result ≡ list_all may_rise numbers.now }
{
    numbers.iter().all(|n| *n < u32::MAX)
}

// Whether the numbers of all entries can rise.
pub(crate) fn entries_may_rise(entries: &[Entry]) -> bool
    ensures { result ≡ list_all entry_may_rise entries.now }
{
    entries.iter().all(|entry| entry.may_rise())
}

// Its active behind its making, by the nodes on which it is complete: the lowest, and none of a collocated one.
fn first_active(attributes: &CreationAttributes, complete: &[u32; NODES_MAX]) -> Option<NodeId>
    ensures { result ≡ first_active attributes.now complete.now }
{
    if is_collocated(attributes) {
        None
    } else {
        first_complete(complete)
    }
}

/// Whether there is an active, and the node is it.
pub fn is_active(active: Option<NodeId>, node: NodeId) -> bool
    ensures { result ≡ is_active active node }
{
    match active {
        None => false,
        Some(active) => active == node,
    }
}

/// The lowest node that is complete.
pub fn first_complete(nodes: &[u32; NODES_MAX]) -> Option<NodeId>
    ensures value { result ≡ first_complete 0 nodes.now }
    ensures within { IfSome result (λ r. r < nodes_max) }
{
    for r in 0..NODES_MAX as u8 {
        if nodes[r as usize] != 0 {
            return Some(r);
        }
    }
    None
}

pub(crate) fn find_entry(entries: &[Entry], identity: CkptId) -> Option<&Entry>
    ensures { MatchOption result (entry_of identity entries.now ≡ None) (λ entry. entry_of identity entries.now ≡ Some entry.now) }
{
    for entry in entries {
        if entry.identity == identity {
            return Some(entry);
        }
    }
    None
}

fn place_of(entries: &[Entry], identity: CkptId) -> Option<usize>
    ensures place { result ≡ place_key identity_of identity entries.now }
    ensures within { IfSome result (λ i. i < length entries.now) }
{
    for i in 0..entries.len() {
        if entries[i].identity == identity {
            return Some(i);
        }
    }
    None
}

/// What a step changes of one entry.
#[derive(Clone, Copy)]
pub(crate) enum Change<'a> {
    /// Its making is finished where these nodes are up, by an opener on this one, and the client has it open.
    Made([u32; NODES_MAX], NodeId, u8),
    /// The client has it open once more, where these nodes are up, by an open from this one.
    Referred([u32; NODES_MAX], NodeId, u8),
    /// The client closes it once, at the moment.
    Released(u8, Moment),
    /// It has no name any more.
    Unnamed,
    /// It stays so long after its last close.
    Retaining(i64),
    /// The call holds it.
    OnHold(CallId),
    /// The node is its active.
    Active(NodeId),
    /// The client closes it as often as it has it open, at the moment.
    ReleasedAll(u8, Moment),
    /// No call of the client holds it.
    Unheld(u8),
    /// The node fails, where the replicas on the others have so many updates.
    Failed(NodeId, &'a Counts),
    /// The node, which is up with this incarnation, or not up where that is 0, is complete for it.
    Completed(NodeId, Incarnation),
}

/// The entry of an identity is changed, where it is there.
pub(crate) fn change_entry(entries: &mut Vec<Entry>, identity: CkptId, change: Change<'_>)
    requires { CanChange change (entry_of identity entries.old.items) }
    ensures items { entries.new.items ≡ change_key identity_of identity (changed_by change.entry) entries.old.items }
    ensures capacity { vec_capacity entries.new ≡ vec_capacity entries.old }
{
    change_at(entries.as_mut_slice(), identity, change);
}

fn change_at(entries: &mut [Entry], identity: CkptId, change: Change<'_>)
    requires { CanChange change (entry_of identity entries.old) }
    ensures { entries.new ≡ change_key identity_of identity (changed_by change.entry) entries.old }
{
    if let Some(i) = place_of(entries, identity) {
        entries[i].change(change);
    }
}

/// Each entry is changed.
pub(crate) fn change_each(entries: &mut Vec<Entry>, change: Change<'_>)
    requires { All (λ e. CanChange change (Some e)) entries.old.items }
    ensures items { entries.new.items ≡ map (changed_by change.entry) entries.old.items }
    ensures capacity { vec_capacity entries.new ≡ vec_capacity entries.old }
{
    change_in(entries.as_mut_slice(), change);
}

fn change_in(entries: &mut [Entry], change: Change<'_>)
    requires { All (λ e. CanChange change (Some e)) entries.old }
    ensures { entries.new ≡ map (changed_by change.entry) entries.old }
{
    for entry in entries.iter_mut() {
        entry.change(change);
    }
}

/// The same entries, with room for all that may be.
pub(crate) fn copy_entries(alloc: Global, entries: &[Entry]) -> Result<Vec<Entry>, AllocError>
    requires { length entries.now ≤ checkpoints_max }
    ensures items { IfOk result (λ copies. copies.items ≡ entries.now) }
    ensures room { IfOk result (λ copies. checkpoints_max ≤ vec_capacity copies) }
{
    let mut copies = Vec::with_capacity(alloc, CHECKPOINTS_MAX)?;
    for entry in entries {
        copies.push_reserved(entry.copy());
    }
    Ok(copies)
}

/// Which entries stay.
#[derive(Clone, Copy)]
pub(crate) enum Staying {
    /// Those that a sweep at the moment leaves.
    Swept(Moment),
    /// All but one.
    AllBut(CkptId),
    /// Those that the client is not making.
    NotMadeBy(u8),
    /// Those in the making, and those for which a node is complete.
    Surviving,
}

impl Staying {
    #[inline(always)]
    fn keeps(self, entry: &Entry) -> bool
        requires { HasTimes entry.now }
        ensures { result ≡ stays_by self entry.now }
    {
        match self {
            Staying::Swept(now) => entry.stays(now),
            Staying::AllBut(identity) => entry.identity != identity,
            Staying::NotMadeBy(client) => !is_call_of(&entry.making, client),
            Staying::Surviving => entry.survives(),
        }
    }
}

// Whether it is a call of this client.
fn is_call_of(call: &Option<CallId>, client: u8) -> bool
    ensures { result ≡ is_call_of client call.now }
{
    match call {
        None => false,
        Some(call) => match call.actor {
            ActorName::Client(other) => other == client,
            ActorName::Node(_) => false,
        },
    }
}

/// How many of the entries are in the making by calls of this client.
pub(crate) fn makings_in(entries: &[Entry], client: u8) -> usize
    ensures { result ≡ makings_of client entries.now }
{
    entries
        .iter()
        .filter(|entry| is_call_of(&entry.making, client))
        .count()
}

/// The entries that stay are left, and the names of the others are unlinked. Each is looked at once, and where all stay,
/// nothing is moved.
#[inline(always)]
pub(crate) fn keep_only(entries: &mut Vec<Entry>, names: &mut Names, staying: Staying)
    requires { All HasTimes entries.old.items }
    ensures items { entries.new.items ≡ filter (stays_by staying) entries.old.items }
    ensures capacity { vec_capacity entries.new ≡ vec_capacity entries.old }
    ensures names { names.new ≡ without_gone (stays_by staying) entries.old.items names.old }
{
    let mut place = 0;
    while place < entries.len() {
        if staying.keeps(&entries[place]) {
            place += 1;
        } else {
            take_gone(entries, names, place);
        }
    }
}

// The entry at a place goes, with its name. Most sweeps take none, so this stands apart from their loop.
#[inline(never)]
fn take_gone(entries: &mut Vec<Entry>, names: &mut Names, place: usize)
    requires { place < length entries.old.items }
    ensures items { entries.new.items ≡ remove entries.old.items place }
    ensures capacity { vec_capacity entries.new ≡ vec_capacity entries.old }
    ensures names { IfSome (slice_get entries.old.items place) (λ e. names.new ≡ without_name e.name names.old) }
{
    unlink_name(names, &entries[place].name);
    entries.remove(place);
}

fn unlink_name(names: &mut Names, name: &Option<KeptName>)
    ensures { names.new ≡ without_name name.now names.old }
{
    if let Some(name) = name {
        names.take_out(name.as_slice());
    }
}
