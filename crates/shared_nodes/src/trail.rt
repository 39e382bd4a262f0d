//! A trail: the labels of the calls that one thread steps, each with its ticket.
ghost use Rattle.std.specs.Prelude.{◌≡◌, ◌+◌, ◌≤◌, ◌<◌, [], ◌∷◌, ◌++◌, All, IfOk, Some, length, slice_get};
ghost use Rattle.shared_nodes.specs.Trails.{AreRising, tickets_of};

use run_labels::Label;
use std::alloc::{AllocError, Global};
use std::marker::Model;

/// A label with the ticket of its step.
#[derive(Drop)]
pub struct Noted {
    /// The ticket.
    pub ticket: u64,
    /// The label.
    pub label: Label,
}

/// Labels in the order of their tickets, which rise, in room that is there before.
#[derive(Drop)]
pub struct Trail {
    items: Vec<Noted>,
}

impl Model for Trail {
    ghost use Rattle.shared_nodes.specs.Trails.{KeptTrail};

    ghost Value = { KeptTrail };

    ghost use Rattle.shared_nodes.specs.TrailView.{trail_shown, IsRising};

    ghost view = { trail_shown };

    ghost invariant = { IsRising };
}

impl Trail {
    /// A trail without labels, with room for so many.
    pub fn reserve(alloc: Global, notes: usize) -> Result<Trail, AllocError>
        ensures { IfOk result (λ trail. trail ≡ record { notes = []; spare = notes }) }
    {
        Ok(Trail {
            items: Vec::with_capacity(alloc, notes)?,
        })
    }

    /// One label more, behind the others, with a ticket above theirs. It takes no memory.
    pub fn push(&mut self, note: Noted)
        requires room { 1 ≤ self.old.spare }
        requires above { All (λ ticket. ticket < note.ticket) (tickets_of self.old.notes) }
        ensures notes { self.new.notes ≡ self.old.notes ++ note ∷ [] }
        ensures spare { self.new.spare + 1 ≡ self.old.spare }
    {
        self.items.push_reserved(note);
    }

    /// How many labels there are.
    pub fn len(&self) -> usize
        ensures count { result ≡ length self.now.notes }
        ensures in_order { AreRising (tickets_of self.now.notes) }
    {
        self.items.len()
    }

    /// How many labels more there is room for.
    pub fn spare(&self) -> usize
        ensures { result ≡ self.now.spare }
    {
        self.items.capacity() - self.items.len()
    }

    /// The label at a place, counted from 0, with its ticket.
    pub fn at(&self, place: usize) -> &Noted
        requires { place < length self.now.notes }
        ensures { slice_get self.now.notes place ≡ Some result.now }
    {
        &self.items[place]
    }
}
