//! The record: what all nodes agree on, and each step that may be made on it.
ghost use Rattle.std.specs.Prelude.{◌≡◌, ℕ, List, ◌-◌, ◌^◌, ◌≤◌, ◌<◌, None, Some, true, slice_get, slice_index, IsSome, IfSome, IfOk, OnOk, OnErr, IfErr, MatchOption, length, nat_lt, pos, ◌≤ℤ◌, if◌then◌else◌};
ghost use Rattle.moment_rules.specs.Times.{sum_until_end};
ghost use Rattle.cluster_record.specs.LookUps.{node_in, life_of, up_as, declared_in, adds_in, identity_in, at_ckpt};
ghost use Rattle.cluster_record.specs.DueOpen.{targets_by};
ghost use Rattle.cluster_record.specs.Identities.{IdentitiesRise, AllUpTo};
ghost use Rattle.cluster_record.specs.Calls.{client_of, IsClient};
ghost use Rattle.cluster_record.specs.Counts.{count_told};
ghost use Rattle.cluster_record.specs.Failing.{goes_with_node, cut_off, without_replicas, failed, TellsOthers, first_on, holds_ended};
ghost use Rattle.cluster_record.specs.Joining.{next_incarnation, node_joined, completed};
ghost use Rattle.cluster_record.specs.Kept.{IsKeptEntry, EachClientOnce, AreKeptClients};
ghost use Rattle.cluster_record.specs.Makings.{making_call, making_finished, making_undone, makings_of};
ghost use Rattle.cluster_record.specs.Numbers.{numbers_left};
ghost use Rattle.cluster_record.specs.Opening.{answer_free, answer_named, open_answer, after_open};
ghost use Rattle.cluster_record.specs.Refusals.{enter_answer, all_taken, plainly, held_by, unlinkable, unlink_answer, retain_answer, unless_another_holds, hold_answer};
ghost use Rattle.cluster_record.specs.StepDone.{generation_in};
ghost use Rattle.ckpt_types.specs.Limits.{nodes_max, client_numbers, clients_max, checkpoints_max};
ghost use Rattle.cluster_record.specs.Places.{find_key};
ghost use Rattle.cluster_record.specs.RecordReady.{CanBecomeLive, CanOpen, CanCreate, CanRefer, CanReferAt, CanSetActive, CanJoin};
ghost use Rattle.cluster_record.specs.RecordState.{empty_record, entry_of, named, complete_of, client_key, home_of, is_live_client, is_up, is_live, is_live_from, swept, first_nodes, brought_up, entered, created_by_ask, IsMomentFrom, moved, opened, closed, unlinked, retained, hold_set, active_set, departed};

use crate::clients::{LiveClient, copy_clients, find_client, first_on, number_of, take_out};
use crate::counts::Counts;
use crate::entries::{
    Change, Entry, Staying, all_may_rise, change_each, change_entry, copy_entries,
    entries_may_rise, find_entry, keep_only, kept_name, makings_in, new_entry,
};
use crate::opening::{OpenAnswer, answer_of};
use crate::placement::{adds, incarnation_at, targets};
use ckpt_types::{
    ActorName, AisError, Bytes, CHECKPOINTS_MAX, CLIENTS_MAX, CallId, Cause, CkptId,
    CreationAttributes, Incarnation, Moment, NODES_MAX, NodeId, OpenAsk,
};
use moment_rules::add_until;
use name_table::Names;
use std::alloc::{AllocError, Global};
use std::marker::Model;

/// Why the record refuses a step.
#[derive(Clone, Copy, PartialEq, Eq)]
pub struct RecordRefused {
    /// The code.
    pub error: AisError,
    /// What it comes from.
    pub cause: Cause,
}

/// What all nodes agree on.
#[derive(Drop)]
pub struct Record {
    up: [u32; NODES_MAX],
    first_calls: [u32; NODES_MAX],
    last_incarnations: [u32; NODES_MAX],
    last_identity: CkptId,
    moment: Moment,
    clients: Vec<LiveClient>,
    entries: Vec<Entry>,
    names: Names,
}

impl Model for Record {
    ghost use Rattle.cluster_record.specs.RecordState.{RecordState};

    ghost Value = { RecordState };

    ghost use Rattle.cluster_record.specs.RecordView.{record_of, IsKept};

    ghost view = { record_of };

    ghost invariant = { IsKept };
}

impl Record {
    /// A record of a cluster whose first nodes are up, so many as are told. All its room is taken here.
    pub fn new(alloc: Global, nodes: u8) -> Result<Record, AllocError>
        requires { nodes ≤ nodes_max }
        ensures { IfOk result (λ made. made ≡ brought_up nodes empty_record) }
    {
        let up = first_nodes(nodes);
        Ok(Record {
            up,
            first_calls: up,
            last_incarnations: up,
            last_identity: 0,
            moment: 0,
            clients: Vec::with_capacity(alloc, CLIENTS_MAX)?,
            entries: Vec::with_capacity(alloc, CHECKPOINTS_MAX)?,
            names: Names::new(alloc)?,
        })
    }

    /// An equal record, with room of its own.
    pub fn copy(&self, alloc: Global) -> Result<Record, AllocError>
        ensures { IfOk result (λ copy. copy ≡ self.now) }
    {
        Ok(Record {
            up: self.up,
            first_calls: self.first_calls,
            last_incarnations: self.last_incarnations,
            last_identity: self.last_identity,
            moment: self.moment,
            clients: copy_clients(alloc, self.clients.as_slice())?,
            entries: copy_entries(alloc, self.entries.as_slice())?,
            names: self.names.copy(alloc)?,
        })
    }

    /// The moment.
    pub fn now(&self) -> Moment
        ensures { result ≡ self.now.moment }
    {
        self.moment
    }

    /// The moment that is so much later than the present one, or the end of time if that comes first.
    pub fn moment_after(&self, duration: Moment) -> Moment
        ensures { result ≡ sum_until_end self.now.moment duration }
    {
        if duration < 0 {
            self.moment + duration
        } else {
            add_until(self.moment, duration)
        }
    }

    /// By node, the incarnation with which it is up, or 0.
    pub fn incarnations(&self) -> [u32; NODES_MAX]
        ensures { result ≡ self.now.up }
    {
        self.up
    }

    /// Whether a node is up.
    pub fn is_up(&self, node: NodeId) -> bool
        ensures { result ≡ is_up node self.now }
    {
        let place = node as usize;
        place < NODES_MAX && self.up[place] != 0
    }

    /// The incarnation with which a node is up, and the number of its first call in it.
    pub fn up(&self, node: NodeId) -> Option<(Incarnation, u32)>
        ensures { result ≡ up_as node self.now }
    {
        if !self.is_up(node) {
            return None;
        }
        Some((self.up[node as usize], self.first_calls[node as usize]))
    }

    /// The identity last given, or 0.
    pub fn last_identity(&self) -> CkptId
        ensures { result ≡ self.now.last_identity }
    {
        self.last_identity
    }

    /// How many clients are live.
    pub fn clients_len(&self) -> usize
        ensures len { result ≡ length self.now.clients }
        ensures few { result ≤ clients_max }
        ensures kept { AreKeptClients self.now.clients }
    {
        self.clients.len()
    }

    /// How many checkpoints there are.
    pub fn entries_len(&self) -> usize
        ensures len { result ≡ length self.now.entries }
        ensures few { result ≤ checkpoints_max }
    {
        self.entries.len()
    }

    /// How many checkpoints are in the making by calls of this client. It takes no memory.
    pub fn makings(&self, client: u8) -> usize
        ensures count { result ≡ makings_of client self.now.entries }
        ensures few { result ≤ checkpoints_max }
    {
        makings_in(self.entries.as_slice(), client)
    }

    /// The entry at a place, counted from 0, in the order of identities.
    pub fn entry_at(&self, place: u32) -> Option<&Entry>
        ensures in_order { IdentitiesRise self.now.entries }
        ensures given { AllUpTo self.now.last_identity self.now.entries }
        ensures at { MatchOption result (length self.now.entries ≤ place) (λ entry. slice_get self.now.entries place ≡ Some entry.now) }
        ensures kept { IfSome result (λ entry. IsKeptEntry self.now.moment entry.now) }
    {
        self.entries.as_slice().get(place as usize)
    }

    /// The checkpoint of an identity.
    pub fn entry(&self, identity: CkptId) -> Option<&Entry>
        ensures found { MatchOption result (entry_of identity self.now.entries ≡ None) (λ entry. entry_of identity self.now.entries ≡ Some entry.now) }
        ensures kept { IfSome result (λ entry. IsKeptEntry self.now.moment entry.now) }
    {
        find_entry(self.entries.as_slice(), identity)
    }

    /// The generation of the checkpoint of an identity; 0 where it is gone.
    pub fn generation_of(&self, identity: CkptId) -> u64
        ensures { result ≡ generation_in (entry_of identity self.now.entries) }
    {
        match self.entry(identity) {
            None => 0,
            Some(entry) => entry.generation,
        }
    }

    /// The checkpoint of a name.
    pub fn named(&self, name: &Bytes) -> Option<&Entry>
        ensures found { MatchOption result (named name.now self.now.entries ≡ None) (λ entry. named name.now self.now.entries ≡ Some entry.now) }
        ensures own { IfSome result (λ entry. entry_of entry.now.identity self.now.entries ≡ Some entry.now) }
        ensures kept { IfSome result (λ entry. IsKeptEntry self.now.moment entry.now) }
    {
        match self.find(name) {
            None => None,
            Some(identity) => find_entry(self.entries.as_slice(), identity),
        }
    }

    /// The checkpoint of a name, as `named`, and sooner where it is likely to be this one.
    pub fn known_as(&self, name: &Bytes, likely: Option<CkptId>) -> Option<&Entry>
        ensures { MatchOption result (named name.now self.now.entries ≡ None) (λ entry. named name.now self.now.entries ≡ Some entry.now) }
    {
        if let Some(identity) = likely {
            if let Some(entry) = find_entry(self.entries.as_slice(), identity) {
                if entry.has_name(name) {
                    return Some(entry);
                }
            }
        }
        self.named(name)
    }

    /// The identity of the checkpoint of a name.
    pub fn find(&self, name: &Bytes) -> Option<CkptId>
        ensures { result ≡ identity_in (named name.now self.now.entries) }
    {
        self.names.look_up(name)
    }

    /// By node, the incarnation with which it is complete for a checkpoint, or 0.
    pub fn complete_on(&self, identity: CkptId) -> [u32; NODES_MAX]
        ensures { result ≡ complete_of (entry_of identity self.now.entries) }
    {
        match self.entry(identity) {
            None => [0; NODES_MAX],
            Some(entry) => entry.complete,
        }
    }

    /// The attributes with which a checkpoint was made; none where it is not there.
    pub fn declared(&self, identity: CkptId) -> Option<CreationAttributes>
        ensures { result ≡ declared_in (entry_of identity self.now.entries) }
    {
        match self.entry(identity) {
            None => None,
            Some(entry) => Some(entry.attributes),
        }
    }

    /// Whether a client is live.
    pub fn is_live_client(&self, client: u8) -> bool
        ensures { result ≡ is_live_client client self.now }
    {
        find_client(self.clients.as_slice(), client).is_some()
    }

    /// Of a client that is live its node, the incarnation in which it became so, and the number of its Initialize call.
    pub fn client(&self, client: u8) -> Option<(NodeId, Incarnation, u32)>
        ensures life { result ≡ life_of (find_key client_key client self.now.clients) }
        ensures within { IfSome result (λ life. (client < client_numbers) × (life.0 < nodes_max)) }
    {
        match find_client(self.clients.as_slice(), client) {
            None => None,
            Some(live) => Some((live.node, live.incarnation, live.initialize)),
        }
    }

    /// The node of a client that is live.
    pub fn node_of(&self, client: u8) -> Option<NodeId>
        ensures node { result ≡ node_in (find_key client_key client self.now.clients) }
        ensures within { IfSome result (λ node. (client < client_numbers) × (node < nodes_max)) }
    {
        match find_client(self.clients.as_slice(), client) {
            None => None,
            Some(live) => Some(live.node),
        }
    }

    /// The node of a client that is live, and n0 for one that is not.
    pub fn home_of(&self, client: u8) -> NodeId
        ensures node { result ≡ home_of client self.now }
        ensures within { result < nodes_max }
    {
        match find_client(self.clients.as_slice(), client) {
            None => 0,
            Some(live) => live.node,
        }
    }

    /// By node, the incarnation in which a checkpoint with these attributes is made there, where this client opens it,
    /// or 0; where none are given, that with which the node is up.
    pub fn targets(&self, attributes: &Option<CreationAttributes>, client: u8) -> [u32; NODES_MAX]
        ensures { result ≡ targets_by attributes.now (home_of client self.now) self.now.up }
    {
        match attributes {
            None => self.up,
            Some(attributes) => targets(attributes, self.home_of(client), &self.up),
        }
    }

    /// Whether a call is live: its client is, or for a copying its node is up, in the life in which it began.
    pub fn live(&self, call: CallId) -> bool
        ensures { result ≡ is_live self.now call }
    {
        match call.actor {
            ActorName::Client(client) => self.is_live_from(client, call.number),
            ActorName::Node(node) => {
                self.is_up(node) && call.number >= self.first_calls[node as usize]
            }
        }
    }

    // Whether a client is live, and the number is not of a call before its Initialize.
    fn is_live_from(&self, client: u8, number: u32) -> bool
        ensures { result ≡ is_live_from (find_key client_key client self.now.clients) number }
    {
        match find_client(self.clients.as_slice(), client) {
            None => false,
            Some(live) => number >= live.initialize,
        }
    }

    /// Whether neither the identity last given, nor an entry's generation, nor a client's number of references to
    /// an entry, nor the last incarnation of a node is the greatest of its type.
    pub fn numbers_left(&self) -> bool
        ensures exact { result ≡ numbers_left self.now }
        ensures identity { result ≡ true → self.now.last_identity < 2 ^ 32 - 1 }
        ensures references { result ≡ true → (client k : ℕ) → CanRefer client (entry_of k self.now.entries) }
        ensures generations { result ≡ true → (k : ℕ) → CanSetActive (entry_of k self.now.entries) }
        ensures incarnations { result ≡ true → (r : ℕ) → slice_index self.now.last_incarnations r < 2 ^ 32 - 1 }
    {
        if !entries_may_rise(self.entries.as_slice()) {
            return false;
        }
        self.last_identity < u32::MAX && all_may_rise(&self.last_incarnations)
    }

    /// The first nodes come up.
    pub fn bring_up(&mut self, n: u8)
        requires { n ≤ nodes_max }
        ensures { self.new ≡ brought_up n self.old }
    {
        let nodes = first_nodes(n);
        self.up = nodes;
        self.first_calls = nodes;
        self.last_incarnations = nodes;
    }

    /// A client becomes live on a node, by its Initialize call. NO_RESOURCES, with the count 64, exactly where so many
    /// are; then nothing changes. It takes no memory.
    pub fn enter(&mut self, call: CallId, node: NodeId) -> Result<(), RecordRefused>
        requires { CanBecomeLive call node self.old }
        ensures answer { result ≡ enter_answer self.old }
        ensures ok { OnOk result ((length self.old.clients < clients_max) × (self.new ≡ entered (client_of call) node call.number self.old)) }
        ensures err { IfErr result (λ refused. (refused ≡ all_taken clients_max) × (clients_max ≤ length self.old.clients) × (self.new ≡ self.old)) }
    {
        if self.clients.len() >= CLIENTS_MAX {
            return Err(all_taken(CLIENTS_MAX as u32));
        }
        let live = LiveClient {
            client: number_of(&call.actor),
            node,
            incarnation: self.up[node as usize],
            initialize: call.number,
        };
        self.clients.push_reserved(live);
        Ok(())
    }

    // What an open gets of a name that no checkpoint has.
    fn answer_free(&self, attributes: &Option<CreationAttributes>) -> OpenAnswer
        requires { self.now.last_identity < 2 ^ 32 - 1 }
        ensures { result ≡ answer_free self.now attributes.now }
    {
        if attributes.is_none() {
            return OpenAnswer::Refused(plainly(AisError::NotExist));
        }
        if self.entries.len() >= CHECKPOINTS_MAX {
            return OpenAnswer::Refused(all_taken(CHECKPOINTS_MAX as u32));
        }
        OpenAnswer::Made(self.last_identity + 1)
    }

    /// What an open of the name by this client gets, with the attributes to make the checkpoint with.
    pub fn open_answer(
        &self,
        name: &Bytes,
        attributes: &Option<CreationAttributes>,
        client: u8,
    ) -> OpenAnswer
        requires { self.now.last_identity < 2 ^ 32 - 1 }
        ensures { result ≡ answer_named self.now attributes.now (home_of client self.now) (named name.now self.now.entries) }
    {
        match self.named(name) {
            None => self.answer_free(attributes),
            Some(entry) => answer_of(entry, attributes, self.home_of(client)),
        }
    }

    /// Whether an open by this client adds a replica of a checkpoint on the client's node: the checkpoint is
    /// collocated, and not complete there.
    pub fn adds_replica(&self, identity: CkptId, client: u8) -> bool
        ensures { result ≡ adds_in (home_of client self.now) (entry_of identity self.now.entries) }
    {
        match self.entry(identity) {
            None => false,
            Some(entry) => adds(&entry.attributes, self.home_of(client), &entry.complete),
        }
    }

    // A checkpoint gets the next identity, and is in the making by the call.
    fn create(&mut self, call: CallId, ask: OpenAsk)
        requires caller { IsClient call.actor }
        requires can { CanOpen ask self.old }
        requires room { CanCreate self.old }
        requires absent { named ask.name self.old.entries ≡ None }
        ensures { self.new ≡ created_by_ask call ask self.old }
    {
        let Some(attributes) = ask.attrs else {
            return;
        };
        let kept = kept_name(&ask.name);
        let identity = self.last_identity + 1;
        let entry = new_entry(call, kept, attributes, identity, self.moment);
        self.last_identity = identity;
        self.names.link(ask.name, identity);
        self.entries.push_reserved(entry);
    }

    /// A client has a checkpoint open once more, which has a name and is not in the making; a collocated one is complete
    /// on the client's node from then on. So an open is done whose answer is known. It takes no memory.
    pub fn refer(&mut self, identity: CkptId, client: u8)
        requires can { CanRefer client (entry_of identity self.old.entries) }
        requires made { (name : List ℕ) × (identity_in (named name self.old.entries) ≡ Some identity) × (making_call (named name self.old.entries) ≡ None) }
        ensures { self.new ≡ opened identity client self.old }
    {
        let referred = Change::Referred(self.up, self.home_of(client), client);
        change_entry(&mut self.entries, identity, referred);
    }

    /// A client opens the checkpoint of a name, or makes it where it is not there and attributes are given. NOT_EXIST
    /// where it is not there and none are given, TRY_AGAIN, with the call, where one is making it, EXIST where it has
    /// other attributes than those given, and NO_RESOURCES, with the count 16, where so many checkpoints are there and
    /// it is not; then nothing changes. A collocated one that is opened is complete on the client's node from then on.
    /// It takes no memory.
    pub fn open(&mut self, call: CallId, ask: OpenAsk) -> OpenAnswer
        requires caller { IsClient call.actor }
        requires can { CanOpen ask self.old }
        requires references { CanReferAt ask.client self.old.entries (identity_in (named ask.name self.old.entries)) }
        requires identity { self.old.last_identity < 2 ^ 32 - 1 }
        ensures answer { result ≡ open_answer self.old ask }
        ensures after { self.new ≡ after_open call ask self.old }
    {
        let answer = self.open_answer(&ask.name, &ask.attrs, ask.client);
        match answer {
            OpenAnswer::Opened(identity, _) => self.refer(identity, ask.client),
            OpenAnswer::Made(_) => self.create(call, ask),
            OpenAnswer::Refused(_) => {}
        }
        answer
    }

    // The call that is making a checkpoint.
    fn making_call(&self, identity: CkptId) -> Option<CallId>
        ensures { result ≡ making_call (entry_of identity self.now.entries) }
    {
        match self.entry(identity) {
            None => None,
            Some(entry) => entry.making,
        }
    }

    /// The making is finished: the nodes on which it is made are complete, which are all that are up, or of a collocated
    /// one that of the client whose call is making it; and that client has it open. Nothing changes where it is not in
    /// the making.
    pub fn finish_create(&mut self, identity: CkptId)
        ensures { self.new ≡ making_finished identity self.old }
    {
        if let Some(call) = self.making_call(identity) {
            let client = number_of(&call.actor);
            let made = Change::Made(self.up, self.home_of(client), client);
            change_entry(&mut self.entries, identity, made);
        }
    }

    /// A client closes a checkpoint once. Nothing changes where the client does not have it open, or it is not there.
    pub fn close(&mut self, client: u8, identity: CkptId)
        ensures { self.new ≡ closed identity client self.old }
    {
        let change = Change::Released(client, self.moment);
        change_entry(&mut self.entries, identity, change);
    }

    // The identity of the checkpoint that an unlink of the name is for.
    fn unlinkable(&self, name: &Bytes) -> Result<CkptId, RecordRefused>
        ensures { result ≡ unlinkable (named name.now self.now.entries) }
    {
        match self.named(name) {
            None => Err(plainly(AisError::NotExist)),
            Some(entry) => match entry.making {
                Some(call) => Err(held_by(call)),
                None => Ok(entry.identity),
            },
        }
    }

    /// A checkpoint's name goes, so that another may take it. NOT_EXIST exactly where no checkpoint has the name, and
    /// TRY_AGAIN, with the call, exactly where one is making the checkpoint that has it; then nothing changes.
    pub fn unlink(&mut self, name: &Bytes) -> Result<(), RecordRefused>
        ensures answer { result ≡ unlink_answer (named name.now self.old.entries) }
        ensures ok { OnOk result (self.new ≡ at_ckpt (identity_in (named name.now self.old.entries)) self.old (λ k. unlinked k self.old)) }
        ensures err { OnErr result (self.new ≡ self.old) }
    {
        let identity = self.unlinkable(name)?;
        self.names.unlink(name);
        change_entry(&mut self.entries, identity, Change::Unnamed);
        Ok(())
    }

    // Whether a checkpoint's retention may be set.
    fn may_retain(&self, identity: CkptId) -> Result<(), RecordRefused>
        ensures { result ≡ retain_answer (entry_of identity self.now.entries) }
    {
        match self.entry(identity) {
            None => Err(plainly(AisError::NotExist)),
            Some(entry) if entry.name.is_none() => Err(plainly(AisError::BadOperation)),
            Some(_) => Ok(()),
        }
    }

    /// How long a checkpoint stays after its last close is set. BAD_OPERATION exactly where it has no name, and
    /// NOT_EXIST exactly where it is not there; then nothing changes.
    pub fn retain(&mut self, identity: CkptId, duration: i64) -> Result<(), RecordRefused>
        requires duration { pos 0 ≤ℤ duration }
        ensures answer { result ≡ retain_answer (entry_of identity self.old.entries) }
        ensures ok { OnOk result (self.new ≡ retained identity duration self.old) }
        ensures err { OnErr result (self.new ≡ self.old) }
    {
        self.may_retain(identity)?;
        change_entry(&mut self.entries, identity, Change::Retaining(duration));
        Ok(())
    }

    // Whether a call may hold a checkpoint.
    fn may_hold(&self, identity: CkptId, call: CallId) -> Result<(), RecordRefused>
        ensures { result ≡ hold_answer call (entry_of identity self.now.entries) }
    {
        match self.entry(identity) {
            Some(entry) if entry.can_be_held() => unless_another_holds(call, &entry.hold),
            _ => Ok(()),
        }
    }

    /// A call holds a checkpoint that is collocated and has an active, until its active is set. TRY_AGAIN, with the
    /// call, exactly where another call holds it; then nothing changes. Of any other checkpoint it is Ok, and nothing
    /// changes either. It takes no memory.
    pub fn hold(&mut self, identity: CkptId, call: CallId) -> Result<(), RecordRefused>
        requires stands { IsSome (entry_of identity self.old.entries) }
        ensures answer { result ≡ hold_answer call (entry_of identity self.old.entries) }
        ensures ok { OnOk result (self.new ≡ hold_set identity call self.old) }
        ensures err { OnErr result (self.new ≡ self.old) }
    {
        self.may_hold(identity, call)?;
        change_entry(&mut self.entries, identity, Change::OnHold(call));
        Ok(())
    }

    /// A node is the active of a checkpoint from now on, and the hold on it ends; the generation rises by one exactly
    /// where another was the active, or none. Nothing changes where the checkpoint is not collocated, or the node is
    /// not complete. It takes no memory.
    pub fn set_active(&mut self, identity: CkptId, node: NodeId)
        requires stands { IsSome (entry_of identity self.old.entries) }
        requires generation { CanSetActive (entry_of identity self.old.entries) }
        ensures { self.new ≡ active_set identity node self.old }
    {
        change_entry(&mut self.entries, identity, Change::Active(node));
    }

    /// A client leaves: it is live no more, what it was making goes, and it has nothing open.
    pub fn leave(&mut self, client: u8)
        ensures { self.new ≡ departed client self.old }
    {
        take_out(&mut self.clients, client);
        let staying = Staying::NotMadeBy(client);
        keep_only(&mut self.entries, &mut self.names, staying);
        change_each(&mut self.entries, Change::ReleasedAll(client, self.moment));
    }

    /// A node fails. Its clients are live no more, what they were making goes, they have nothing open, and their calls
    /// hold nothing; where nobody has a checkpoint open by that, this moment is that of its last close. No checkpoint
    /// is complete on the node any more, and one that is made goes, with its name, where no other node is complete for
    /// it. Exactly where the node was the active, the generation rises by one, and the active is chosen anew: where
    /// updates are on all replicas, the lowest complete node; where they go to the active alone, the one whose replica
    /// has the most updates by `counts`, the lowest of those that have as many; and of a collocated checkpoint none,
    /// until a client sets one. It takes no memory.
    pub fn fail(&mut self, node: NodeId, counts: &Counts)
        requires up { is_up node self.old ≡ true }
        requires counts { TellsOthers counts.now node self.old.entries }
        requires generations { (k : ℕ) → CanSetActive (entry_of k self.old.entries) }
        ensures { self.new ≡ failed (count_told counts.now) node self.old }
    {
        self.up[node as usize] = 0;
        self.cut_off(node);
        self.lose_replicas(node, counts);
    }

    // The clients of a node leave, and their holds end.
    fn cut_off(&mut self, node: NodeId)
        ensures { self.new ≡ cut_off (goes_with_node self.old node) self.old }
    {
        while let Some(client) = self.first_on(node) {
            self.leave(client);
            self.end_holds(client);
        }
    }

    // The first client that is live on this node.
    fn first_on(&self, node: NodeId) -> Option<u8>
        ensures first { result ≡ first_on node self.now.clients }
        ensures each_once { EachClientOnce self.now.clients }
    {
        first_on(self.clients.as_slice(), node)
    }

    // No call of the client holds any checkpoint.
    fn end_holds(&mut self, client: u8)
        ensures { self.new ≡ holds_ended client self.old }
    {
        change_each(&mut self.entries, Change::Unheld(client));
    }

    // No checkpoint is complete on the node any more, and each that has no complete node left goes.
    fn lose_replicas(&mut self, node: NodeId, counts: &Counts)
        requires { (k : ℕ) → CanSetActive (entry_of k self.old.entries) }
        ensures { self.new ≡ without_replicas (count_told counts.now) node self.old }
    {
        change_each(&mut self.entries, Change::Failed(node, counts));
        keep_only(&mut self.entries, &mut self.names, Staying::Surviving);
    }

    /// A node that is not up joins. It is up from then on, in the incarnation that follows its last one, or in its first
    /// where it had none, which is answered, and `first` is the number of the first call that it may begin in it; so its
    /// calls of an earlier life are live no more. It has no replica, and nothing else changes. It takes no memory.
    pub fn join(&mut self, node: NodeId, first: u32) -> Incarnation
        requires { CanJoin node self.old }
        ensures incarnation { result ≡ next_incarnation node self.old }
        ensures new { self.new ≡ node_joined node first self.old }
    {
        let place = node as usize;
        let incarnation = self.last_incarnations[place] + 1;
        self.up[place] = incarnation;
        self.first_calls[place] = first;
        self.last_incarnations[place] = incarnation;
        incarnation
    }

    /// A node has a complete replica of a checkpoint from then on, with the incarnation with which it is up. Where updates
    /// are on all replicas, the lowest complete node is the active then, and exactly where another was, or none, the
    /// generation rises by one; else the active stays. Nothing changes where the checkpoint is in the making or
    /// collocated, where the node is not up, or where it is complete already. It takes no memory.
    pub fn complete(&mut self, ckpt: CkptId, node: NodeId)
        requires stands { IsSome (entry_of ckpt self.old.entries) }
        requires generation { CanSetActive (entry_of ckpt self.old.entries) }
        ensures { self.new ≡ completed ckpt node self.old }
    {
        let completed = Change::Completed(node, incarnation_at(&self.up, node));
        change_entry(&mut self.entries, ckpt, completed);
    }

    /// The making is undone. Nothing changes where the checkpoint is not in the making.
    pub fn undo_create(&mut self, identity: CkptId)
        ensures { self.new ≡ making_undone identity self.old }
    {
        if self.making_call(identity).is_some() {
            let staying = Staying::AllBut(identity);
            keep_only(&mut self.entries, &mut self.names, staying);
        }
    }

    /// What is over is swept away.
    pub fn sweep(&mut self)
        ensures { self.new ≡ swept self.old }
    {
        let staying = Staying::Swept(self.moment);
        keep_only(&mut self.entries, &mut self.names, staying);
    }

    /// The moment is set, and what is over then is swept away. Whether a checkpoint is gone by that.
    pub fn set_moment(&mut self, t: Moment) -> bool
        requires { IsMomentFrom self.old.moment t }
        ensures new { self.new ≡ moved t self.old }
        ensures gone { result ≡ nat_lt (length self.new.entries) (length self.old.entries) }
    {
        let before = self.entries.len();
        self.moment = t;
        self.sweep();
        self.entries.len() < before
    }
}

// All of so many places are taken.
fn all_taken(count: u32) -> RecordRefused
    ensures { result ≡ all_taken count }
{
    RecordRefused {
        error: AisError::NoResources,
        cause: Cause::Count(count),
    }
}

// A refusal that says all.
pub(crate) fn plainly(error: AisError) -> RecordRefused
    ensures { result ≡ plainly error }
{
    RecordRefused {
        error,
        cause: Cause::Plain,
    }
}

// A refusal since another call is making the checkpoint, or holds it.
pub(crate) fn held_by(call: CallId) -> RecordRefused
    ensures { result ≡ held_by call }
{
    RecordRefused {
        error: AisError::TryAgain,
        cause: Cause::Holder(call),
    }
}

// A hold that stands is the call's own, or refuses it.
fn unless_another_holds(call: CallId, hold: &Option<CallId>) -> Result<(), RecordRefused>
    ensures { result ≡ unless_another_holds call hold.now }
{
    match hold {
        None => Ok(()),
        Some(holder) => {
            if *holder == call {
                Ok(())
            } else {
                Err(held_by(*holder))
            }
        }
    }
}

fn first_nodes(n: u8) -> [u32; NODES_MAX]
    ensures { result ≡ first_nodes n }
{
    [
        one_below(0, n),
        one_below(1, n),
        one_below(2, n),
        one_below(3, n),
        one_below(4, n),
        one_below(5, n),
        one_below(6, n),
        one_below(7, n),
    ]
}

fn one_below(r: u8, n: u8) -> u32
    ensures { result ≡ (if nat_lt r n then 1 else 0) }
{
    if r < n { 1 } else { 0 }
}
