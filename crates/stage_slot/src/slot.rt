//! A slot: empty, or with one staged update and the call that owns it.
ghost use Rattle.std.specs.Prelude.{◌≡◌, IfOk, None, MatchOption, Some};
ghost use Rattle.stage_slot.specs.Slots.{owner_of, IsOwnedBy, IsStage, IsClaim};

use ckpt_types::{CallId, Held, Moment, SharedUpdate};
use std::alloc::{AllocError, Global};
use std::marker::Model;

/// An update that is staged.
#[derive(Drop)]
pub struct Staged {
    /// The call that owns it.
    pub owner: CallId,
    /// The update.
    pub update: SharedUpdate,
    /// The moment at which it is done.
    pub moment: Moment,
    /// How many updates the replica had when it was staged.
    pub count: u64,
}

impl Model for Staged {
    ghost use Rattle.stage_slot.specs.Slots.{Slot};

    ghost Value = { Slot };

    ghost use Rattle.stage_slot.specs.SlotView.{staged_shown};

    ghost view = { staged_shown };
}

impl Staged {
    // An equal one, with a share of the update.
    fn copy(&self) -> Result<Staged, AllocError>
        ensures { IfOk result (λ copy. copy ≡ self.now) }
    {
        Ok(Staged {
            owner: self.owner,
            update: self.update.share()?,
            moment: self.moment,
            count: self.count,
        })
    }
}

/// What a claim finds.
#[derive(Clone, Copy)]
pub enum Claimed {
    /// The slot is the caller's now; the replica had so many updates when it was staged.
    Slot(u64),
    /// No slot stands.
    Free,
}

/// Room for one staged update. It takes no memory.
#[derive(Drop)]
pub struct Slot {
    staged: Option<Staged>,
}

impl Model for Slot {
    ghost use Rattle.std.specs.Prelude.{Option};
    ghost use Rattle.stage_slot.specs.Slots.{Slot};

    ghost Value = { Option Slot };

    ghost use Rattle.stage_slot.specs.SlotView.{slot_shown};

    ghost view = { slot_shown };
}

impl Slot {
    /// No update is staged.
    pub fn empty() -> Slot
        ensures { result ≡ None }
    {
        Slot { staged: None }
    }

    /// What is staged; nothing where no slot stands.
    #[inline(always)]
    pub fn kept(&self) -> Option<&Staged>
        ensures { MatchOption result (self.now ≡ None) (λ staged. self.now ≡ Some staged.now) }
    {
        self.staged.as_ref()
    }

    /// The call that owns the slot, where one stands.
    #[inline(always)]
    pub fn owner(&self) -> Option<CallId>
        ensures { result ≡ owner_of self.now }
    {
        match &self.staged {
            None => None,
            Some(staged) => Some(staged.owner),
        }
    }

    /// An update of a call is put into the slot, which is this call's from then on. Where the slot of another
    /// call stands, this one stays, and `Held` names its owner.
    #[inline(always)]
    pub fn stage(
        &mut self,
        by: CallId,
        update: SharedUpdate,
        moment: Moment,
        count: u64,
    ) -> Result<(), Held>
        ensures { IsStage (record { owner = by; update = update; moment = moment; count = count }) self.old result self.new }
    {
        if let Some(staged) = &self.staged {
            if staged.owner != by {
                return Err(Held { by: staged.owner });
            }
        }
        self.staged = Some(Staged {
            owner: by,
            update,
            moment,
            count,
        });
        Ok(())
    }

    /// A call claims the slot of an owner, or its own: it owns the slot from then on, with the update, the moment
    /// and the count as they are. Where a third call owns it, it stays, and `Held` names that call.
    pub fn claim(&mut self, by: CallId, owner: CallId) -> Result<Claimed, Held>
        ensures { IsClaim by owner self.old result self.new }
    {
        let Some(staged) = &mut self.staged else {
            return Ok(Claimed::Free);
        };
        let held = Held { by: staged.owner };
        if held.by != by && held.by != owner {
            return Err(held);
        }
        staged.owner = by;
        Ok(Claimed::Slot(staged.count))
    }

    /// The slot of a call is empty from then on.
    #[inline(always)]
    pub fn clear(&mut self, by: CallId)
        requires own { IsOwnedBy by self.old }
        ensures { self.new ≡ None }
    {
        let Some(staged) = &self.staged else {
            unreachable!()
        };
        prove!(staged.owner == by);
        self.staged = None;
    }

    /// An equal slot, with a share of the update. It takes no memory, and fails only where the shares can't be counted.
    pub fn copy(&self, _alloc: Global) -> Result<Slot, AllocError>
        ensures { IfOk result (λ copy. copy ≡ self.now) }
    {
        match &self.staged {
            None => Ok(Slot::empty()),
            Some(staged) => {
                let copy = staged.copy()?;
                Ok(Slot { staged: Some(copy) })
            }
        }
    }
}
