//! Where a staged update goes in a store, so that it is made without a look-up.
ghost use Rattle.std.specs.Prelude.{◌≡◌, ◌++◌, ◌∷◌, [], ◌<◌, false, length, IfOk, slice_get, Some};
ghost use Rattle.section_store.specs.Planned.{is_short, size_planned};

use ckpt_types::{Update, VECTOR_MAX};
use std::alloc::{AllocError, Global};
use std::marker::Model;

/// Where one section stands among those that are present, and how many bytes it has once it is changed.
#[derive(Clone, Copy)]
pub struct Planned {
    /// Its place among those that are present, or the place that it gets among them.
    pub place: usize,
    /// How many bytes it has then.
    pub size: usize,
}

/// Where an update goes in a store: for a write, an entry for each element, for another update one.
#[derive(Drop)]
pub struct Plan {
    entries: Vec<Planned>,
}

impl Model for Plan {
    ghost use Rattle.std.specs.Prelude.{List};
    ghost use Rattle.section_store.specs.declared.plan.Planned.{Planned};
    ghost use Rattle.section_store.specs.PlanView.{HasRoom};

    ghost Value = { List Planned };

    ghost view = { λ plan. plan.entries.items };

    ghost invariant = { HasRoom };
}

impl Plan {
    /// An empty plan, with room for every update of at most 64 elements.
    pub fn reserve(alloc: Global) -> Result<Plan, AllocError>
        ensures { IfOk result (λ plan. plan ≡ []) }
    {
        Ok(Plan {
            entries: Vec::with_capacity(alloc, VECTOR_MAX)?,
        })
    }

    /// Whether there is room for the plan of an update.
    pub fn has_room_for(update: &Update) -> bool
        ensures { result ≡ is_short update.now }
    {
        match update {
            Update::Write(elements) => elements.as_slice().len() <= VECTOR_MAX,
            _ => true,
        }
    }

    /// An equal plan, with room of its own.
    pub fn copy(&self, alloc: Global) -> Result<Plan, AllocError>
        ensures { IfOk result (λ plan. plan ≡ self.now) }
    {
        let mut copy = Plan::reserve(alloc)?;
        for entry in self.entries.iter() {
            copy.push(*entry);
        }
        Ok(copy)
    }

    /// The entry at a place.
    pub(crate) fn at(&self, place: usize) -> Planned
        requires { place < length self.now }
        ensures { slice_get self.now place ≡ Some result }
    {
        self.entries[place]
    }

    /// The size that is planned last for the section at a place, or else this one, which it is where no section has grown.
    #[inline(always)]
    pub(crate) fn size_before(&self, place: usize, size: usize, grown: bool) -> usize
        requires { grown ≡ false → size_planned place size self.now ≡ size }
        ensures { result ≡ size_planned place size self.now }
    {
        if grown {
            self.size_of(place, size)
        } else {
            size
        }
    }

    /// The size that is planned last for the section at a place, or else this one.
    #[inline(never)]
    fn size_of(&self, place: usize, size: usize) -> usize
        ensures { result ≡ size_planned place size self.now }
    {
        let mut last = size;
        for entry in self.entries.iter() {
            if entry.place == place {
                last = entry.size;
            }
        }
        last
    }

    pub(crate) fn clear(&mut self)
        ensures { self.new ≡ [] }
    {
        self.entries.clear();
    }

    pub(crate) fn push(&mut self, entry: Planned)
        requires { length self.old < 64 }
        ensures { self.new ≡ self.old ++ entry ∷ [] }
    {
        self.entries.push_reserved(entry);
    }
}
