//! A journal: what was done to a node, step by step.
ghost use Rattle.std.specs.Prelude.{◌≡◌, ◌+◌, ◌≤◌, ◌<◌, [], ◌∷◌, ◌++◌, IfOk, length, slice_index, slice_get, Some};
ghost use Rattle.shared_nodes.specs.Journals.{KeptJournal};

use crate::kept::Kept;
use crate::seen::Seen;
use node_msgs::{NodeChange, Reply, Request};
use std::alloc::{AllocError, Global};
use std::marker::Model;

/// What was done to a node.
#[derive(Clone, Copy)]
pub enum NodeStep {
    /// It served a request, with this reply.
    Served(Request, Reply),
    /// It had its part in a step of the record.
    Changed(NodeChange),
}

/// A step at a node, with all that the node looked at.
#[derive(Drop)]
pub struct JournalEntry {
    /// The ticket of the call's step of which it is a part.
    pub ticket: u64,
    pub step: NodeStep,
    /// What the record showed of its checkpoint.
    pub seen: Seen,
    /// What travelled beside it.
    pub kept: Kept,
}

/// The steps at a node, in their order, in room that is there before.
#[derive(Drop)]
pub struct Journal {
    items: Vec<JournalEntry>,
}

impl Model for Journal {
    ghost use Rattle.shared_nodes.specs.Journals.{KeptJournal};

    ghost Value = { KeptJournal };

    ghost use Rattle.shared_nodes.specs.JournalView.{journal_shown};

    ghost view = { journal_shown };
}

impl Journal {
    /// A journal without entries, with room for so many.
    pub fn reserve(alloc: Global, entries: usize) -> Result<Journal, AllocError>
        ensures { IfOk result (λ journal. journal ≡ record { entries = []; spare = entries }) }
    {
        Ok(Journal {
            items: Vec::with_capacity(alloc, entries)?,
        })
    }

    /// One entry more, behind the others. It takes no memory.
    pub fn push(&mut self, item: JournalEntry)
        requires { 1 ≤ self.old.spare }
        ensures entries { self.new.entries ≡ self.old.entries ++ item ∷ [] }
        ensures spare { self.new.spare + 1 ≡ self.old.spare }
    {
        self.items.push_reserved(item);
    }

    /// How many entries there are.
    pub fn len(&self) -> usize
        ensures { result ≡ length self.now.entries }
    {
        self.items.len()
    }

    /// How many entries more there is room for.
    pub fn spare(&self) -> usize
        ensures { result ≡ self.now.spare }
    {
        self.items.capacity() - self.items.len()
    }

    /// The entry at a place.
    pub fn at(&self, place: usize) -> &JournalEntry
        requires { place < length self.now.entries }
        ensures { slice_get self.now.entries place ≡ Some result.now }
    {
        &self.items[place]
    }
}
