//! A replica: what may be done to it, and what becomes of it. It knows no message and no other replica.
ghost use Rattle.std.specs.Prelude.{◌≡◌, ◌≢◌, ◌+◌, ◌-◌, ◌^◌, ◌<◌, false, true, None, IfOk, IsOk};
ghost use Rattle.ckpt_types.specs.Attributes.{is_malformed};
ghost use Rattle.ckpt_types.specs.Sections.{Fits};
ghost use Rattle.ckpt_types.specs.Updates.{outcome};
ghost use Rattle.stage_slot.specs.Slots.{owner_of, IsOwnedBy, IsClaim};
ghost use Rattle.update_rules.specs.Told.{check_answer};
ghost use Rattle.update_rules.specs.Writes.{placed_first};
ghost use Rattle.weak_marks.specs.Marks.{call_of, is_left, is_left_of, IsMarkedBy};
ghost use Rattle.replica.specs.ReplicaView.{IsPlanOf};
ghost use Rattle.replica.specs.Replicas.{opened_replica, outcome_on, answer_unless, staged, committed, withdrawn, applied, begun, element_done, elements_left, first_written, ended, abandoned, all_corrupted, IsWrite, CanGoOn, pull_result, pulled_unless, is_older, install_answer, taken_from, installed};

use ckpt_types::{
    CallId, CkptId, CreationAttributes, Held, IoElement, Moment, SharedUpdate, Update,
};
use section_store::{Plan, Store};
use snap_copy::Snap;
use stage_slot::{Claimed, Slot};
use std::alloc::{AllocError, Global};
use std::marker::Model;
use update_rules::Refused;
use weak_marks::{Marked, Marks};

/// Why an update is not staged, is not made at once, or does not begin.
#[derive(Clone, Copy)]
pub enum StageRefused {
    /// The slot of this call stands, or its marks do.
    Held(CallId),
    /// The sections do not admit the update.
    Rules(Refused),
}

/// A snapshot is not installed: the replica has this generation and so many updates, which are not below the
/// snapshot's, the generation compared first.
#[derive(Clone, Copy)]
pub struct Older {
    /// The replica's generation.
    pub generation: u64,
    /// How many updates the replica has taken.
    pub count: u64,
}

/// One replica of a checkpoint.
#[derive(Drop)]
pub struct Replica {
    ckpt: CkptId,
    store: Store,
    // Where the update goes that is staged, unless it is too long for a plan.
    plan: Plan,
    // How many updates it has taken.
    count: u64,
    generation: u64,
    slot: Slot,
    marks: Marks,
}

impl Model for Replica {
    ghost use Rattle.replica.specs.Replicas.{Replica};

    ghost Value = { Replica };

    ghost use Rattle.replica.specs.ReplicaView.{replica_shown, KeepsAll};

    ghost view = { replica_shown };

    ghost invariant = { KeepsAll };
}

impl Replica {
    /// A replica with the sections that a checkpoint with these attributes has when it is opened, made at this
    /// moment. All storage for what they declare is taken here: no later call but `copy` takes memory.
    pub fn reserve(
        alloc: Global,
        ckpt: CkptId,
        attributes: &CreationAttributes,
        made: Moment,
    ) -> Result<Replica, AllocError>
        requires { is_malformed attributes.now ≡ false }
        ensures { IfOk result (λ replica. replica ≡ opened_replica ckpt attributes.now made) }
    {
        Ok(Replica {
            ckpt,
            store: Store::reserve(alloc, attributes, made)?,
            plan: Plan::reserve(alloc)?,
            count: 0,
            generation: 1,
            slot: Slot::empty(),
            marks: Marks::empty(),
        })
    }

    /// An equal replica, with storage of its own, and shares of what is staged and of the weak write.
    pub fn copy(&self, alloc: Global) -> Result<Replica, AllocError>
        ensures { IfOk result (λ copy. copy ≡ self.now) }
    {
        Ok(Replica {
            ckpt: self.ckpt,
            store: self.store.copy(alloc)?,
            plan: self.plan.copy(alloc)?,
            count: self.count,
            generation: self.generation,
            slot: self.slot.copy(alloc)?,
            marks: self.marks.copy(alloc)?,
        })
    }

    /// Stages the update of a call, to be done at this moment. Where a slot stands, or the sections do not admit
    /// the update, nothing changes, and the answer says which.
    #[inline(always)]
    pub fn stage(
        &mut self,
        by: CallId,
        update: SharedUpdate,
        moment: Moment,
    ) -> Result<(), StageRefused>
        requires room { self.old.count < 2 ^ 64 - 1 }
        requires unmarked { self.old.marks ≡ None }
        ensures answer { result ≡ answer_unless (owner_of self.old.slot) (outcome_on self.old update moment) }
        ensures new { self.new ≡ staged by update moment self.old }
    {
        if let Some(owner) = self.slot.owner() {
            return Err(StageRefused::Held(owner));
        }
        let checked = update_rules::check_placed(
            self.store.attributes(),
            &self.store,
            update.value(),
            moment,
        );
        match checked {
            Ok(first) => plan_staged(&self.store, update.value(), first, moment, &mut self.plan),
            Err(refused) => return Err(StageRefused::Rules(refused)),
        }
        let Ok(()) = self.slot.stage(by, update, moment, self.count) else {
            unreachable!()
        };
        Ok(())
    }

    /// A call claims the slot of an owner that is live no more, or its own: the slot is the caller's from then on.
    /// Where a third call owns it, it stays, and `Held` names that call.
    pub fn claim(&mut self, by: CallId, owner: CallId) -> Result<Claimed, Held>
        ensures answer { IsClaim by owner self.old.slot result self.new.slot }
        ensures new { self.new ≡ record self.old { slot = self.new.slot } }
    {
        self.slot.claim(by, owner)
    }

    /// The sections become the outcome of what the call has staged, which counts from then on.
    #[inline(always)]
    pub fn commit(&mut self, by: CallId)
        requires own { IsOwnedBy by self.old.slot }
        ensures { self.new ≡ committed self.old self.old.slot }
    {
        let Some(staged) = self.slot.kept() else {
            unreachable!()
        };
        let update = staged.update.value();
        if Plan::has_room_for(update) {
            self.store.apply_plan(update, staged.moment, &self.plan);
        } else {
            self.store.apply(update, staged.moment);
        }
        self.count += 1;
        self.slot.clear(by);
    }

    /// What the call has staged is dropped, and leaves nothing behind.
    pub fn withdraw(&mut self, by: CallId)
        requires own { IsOwnedBy by self.old.slot }
        ensures { self.new ≡ withdrawn self.old }
    {
        self.slot.clear(by);
    }

    /// Makes an update at once, at this moment. Where the marks of a weak write stand, or the sections do not admit
    /// the update, nothing changes, and the answer says which.
    pub fn apply_now(&mut self, update: &Update, moment: Moment) -> Result<(), StageRefused>
        requires room { self.old.count < 2 ^ 64 - 1 }
        requires free { self.old.slot ≡ None }
        ensures answer { result ≡ answer_unless (call_of self.old.marks) (outcome_on self.old update.now moment) }
        ensures new { self.new ≡ applied update.now moment self.old }
    {
        self.admit(update, moment)?;
        self.store.apply(update, moment);
        self.count += 1;
        Ok(())
    }

    /// The weak write of a call begins, whose elements are done one by one, all at this moment. Where marks stand, or
    /// the sections do not admit the whole write, nothing changes, and the answer says which.
    pub fn weak_begin(
        &mut self,
        by: CallId,
        update: SharedUpdate,
        moment: Moment,
    ) -> Result<(), StageRefused>
        requires write { IsWrite update }
        requires room { self.old.count < 2 ^ 64 - 1 }
        requires free { self.old.slot ≡ None }
        ensures answer { result ≡ answer_unless (call_of self.old.marks) (outcome_on self.old update moment) }
        ensures new { self.new ≡ begun by update moment self.old }
    {
        self.admit(update.value(), moment)?;
        let Ok(()) = self.marks.begin(by, update, moment, self.generation) else {
            unreachable!()
        };
        Ok(())
    }

    /// The next element of the weak write is done, alone.
    pub fn weak_element(&mut self, by: CallId)
        requires own { IsMarkedBy by self.old.marks }
        requires left { is_left_of self.old.marks ≡ true }
        ensures { self.new ≡ element_done self.old self.old.marks }
    {
        let Some(marked) = self.marks.kept() else {
            unreachable!()
        };
        write_next(&mut self.store, marked);
        let Some(_) = self.marks.element(by) else {
            unreachable!()
        };
    }

    /// The weak write, all of whose elements are done, counts, and its marks go.
    pub fn weak_end(&mut self, by: CallId)
        requires own { IsMarkedBy by self.old.marks }
        requires done { is_left_of self.old.marks ≡ false }
        ensures { self.new ≡ ended self.old }
    {
        self.count += 1;
        self.marks.end(by);
    }

    /// The weak write that is under way ends with its call gone: each section that it writes is corrupted, where it
    /// stands, the write counts, and its marks go. Where no marks stand, nothing changes.
    pub fn weak_abandon(&mut self)
        ensures { self.new ≡ abandoned self.old self.old.marks }
    {
        let Some(marked) = self.marks.kept() else {
            return;
        };
        corrupt_all(&mut self.store, marked.elements());
        self.count += 1;
        self.marks = Marks::empty();
    }

    // Whether an update may be made at this moment without being staged, or what holds it off.
    fn admit(&self, update: &Update, moment: Moment) -> Result<(), StageRefused>
        ensures { result ≡ answer_unless (call_of self.now.marks) (outcome_on self.now update.now moment) }
    {
        if let Some(call) = self.marks.call() {
            return Err(StageRefused::Held(call));
        }
        match self.check(update, moment) {
            Ok(()) => Ok(()),
            Err(refused) => Err(StageRefused::Rules(refused)),
        }
    }

    // Whether the sections admit an update at a moment, or why not.
    #[inline(always)]
    fn check(&self, update: &Update, moment: Moment) -> Result<(), Refused>
        ensures { result ≡ check_answer (outcome_on self.now update.now moment) }
    {
        update_rules::check(self.store.attributes(), &self.store, update, moment)
    }

    /// The snapshot has what the replica has: its sections, its generation and its count of updates. Where the marks
    /// of a weak write stand, the snapshot stays as it was, and the answer is their call.
    pub fn pull(&self, snap: &mut Snap) -> Result<(), Held>
        requires { Fits snap.old.attributes self.now.sections }
        ensures answer { result ≡ pull_result (call_of self.now.marks) }
        ensures snap { snap.new ≡ pulled_unless (call_of self.now.marks) self.now snap.old }
    {
        if let Some(call) = self.marks.call() {
            return Err(Held { by: call });
        }
        snap.pull(&self.store, self.generation, self.count);
        Ok(())
    }

    /// A replica that is older than the snapshot has what the snapshot has from then on. Any other stays as it was, and
    /// the answer tells its generation and its count.
    pub fn install(&mut self, snap: &Snap) -> Result<(), Older>
        requires free { self.old.slot ≡ None }
        requires unmarked { self.old.marks ≡ None }
        requires fits { Fits self.old.attributes snap.now.sections }
        ensures answer { result ≡ install_answer self.old snap.now }
        ensures new { self.new ≡ installed snap.now self.old }
    {
        if !self.is_older(snap) {
            return Err(Older {
                generation: self.generation,
                count: self.count,
            });
        }
        self.complete_from(snap, snap.generation());
        Ok(())
    }

    /// The replica has the sections and the count of the snapshot from then on, with this generation.
    pub fn complete_from(&mut self, snap: &Snap, generation: u64)
        requires free { self.old.slot ≡ None }
        requires unmarked { self.old.marks ≡ None }
        requires fits { Fits self.old.attributes snap.now.sections }
        ensures { self.new ≡ record (taken_from snap.now self.old) { generation = generation } }
    {
        self.store.copy_from(snap);
        self.count = snap.count();
        self.generation = generation;
    }

    // Whether its generation and count are below the snapshot's, the generation compared first.
    fn is_older(&self, snap: &Snap) -> bool
        ensures { result ≡ is_older self.now snap.now }
    {
        self.generation < snap.generation()
            || (self.generation == snap.generation() && self.count < snap.count())
    }

    /// The replica has this generation from then on.
    pub fn lead(&mut self, generation: u64)
        ensures { self.new ≡ record self.old { generation = generation } }
    {
        self.generation = generation;
    }

    /// The checkpoint.
    #[inline(always)]
    pub fn ckpt(&self) -> CkptId
        ensures { result ≡ self.now.ckpt }
    {
        self.ckpt
    }

    /// Its generation.
    pub fn generation(&self) -> u64
        ensures { result ≡ self.now.generation }
    {
        self.generation
    }

    /// How many updates it has taken.
    pub fn count(&self) -> u64
        ensures { result ≡ self.now.count }
    {
        self.count
    }

    /// What is staged on it, and by whom.
    #[inline(always)]
    pub fn slot(&self) -> &Slot
        ensures { result.now ≡ self.now.slot }
    {
        &self.slot
    }

    /// The call that owns its slot, where one stands.
    pub fn slot_owner(&self) -> Option<CallId>
        ensures { result ≡ owner_of self.now.slot }
    {
        self.slot.owner()
    }

    /// The weak write that is under way on it, and how far it is.
    pub fn marks(&self) -> &Marks
        ensures { result.now ≡ self.now.marks }
    {
        &self.marks
    }

    /// The call whose marks stand on it, where they do.
    pub fn marked_by(&self) -> Option<CallId>
        ensures { result ≡ call_of self.now.marks }
    {
        self.marks.call()
    }

    /// Whether marks stand with an element that is not done.
    pub fn elements_left(&self) -> bool
        ensures { result ≡ is_left_of self.now.marks }
    {
        self.marks.left()
    }

    /// Its sections, and what they are declared to be.
    pub fn store(&self) -> &Store
        ensures sections { result.now.sections ≡ self.now.sections }
        ensures attributes { result.now.attributes ≡ self.now.attributes }
    {
        &self.store
    }
}

// Plans an update that the sections admit, where a plan has room for it. Of a write it is known where the section of its
// first element stands.
#[inline(always)]
fn plan_staged(store: &Store, update: &Update, first: usize, moment: Moment, plan: &mut Plan)
    requires accepted { IsOk (outcome store.now.attributes update.now moment store.now.sections) }
    requires first { first ≡ placed_first update.now store.now.sections }
    ensures { IsPlanOf update.now moment store.now plan.new }
{
    if !Plan::has_room_for(update) {
        return;
    }
    if let Update::Write(elements) = update {
        store.plan_write(elements.as_slice(), first, moment, plan);
    } else {
        store.plan(update, moment, plan);
    }
}

// The next element of a weak write is done, alone, and those behind it can be done then.
fn write_next(store: &mut Store, marked: &Marked)
    requires left { is_left marked.now ≡ true }
    requires fits { CanGoOn store.old.attributes marked.now store.old.sections }
    ensures attributes { store.new.attributes ≡ store.old.attributes }
    ensures first { first_written store.old.attributes marked.now.moment (elements_left marked.now) store.old.sections ≡ store.new.sections }
    ensures rest { CanGoOn store.new.attributes (record marked.now { done = marked.now.done + 1 }) store.new.sections }
{
    let Some(element) = marked.next() else {
        unreachable!()
    };
    store.apply_element(element, marked.moment);
}

// Each section that these elements write is corrupted, where it stands.
fn corrupt_all(store: &mut Store, elements: &[IoElement])
    ensures { store.new ≡ record store.old { sections = all_corrupted elements.now store.old.sections } }
{
    for element in elements {
        store.corrupt(element.id.as_slice());
    }
}
