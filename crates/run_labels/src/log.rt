//! The log: the labels of a run in order.
ghost use Rattle.std.specs.Prelude.{◌≡◌, ◌+◌, ◌≤◌, ◌<◌, [], ◌∷◌, ◌++◌, OnOk, IsOk, Some, IsTrue, ◌↔◌, length, slice_get, take};

use crate::labels::Label;
use std::alloc::{AllocError, Global};
use std::marker::Model;

/// The labels of a run, in order, in room that may be taken before.
#[derive(Drop)]
pub struct RunLog {
    items: Vec<Label>,
}

impl Model for RunLog {
    ghost use Rattle.run_labels.specs.Kept.{KeptLabels};

    ghost Value = { KeptLabels };

    ghost use Rattle.run_labels.specs.RunLog.{kept_labels};

    ghost view = { kept_labels };
}

impl RunLog {
    /// A log with no label. It takes no memory.
    pub fn new(alloc: Global) -> RunLog
        ensures { result.labels ≡ [] }
    {
        RunLog {
            items: Vec::new(alloc),
        }
    }

    /// Takes room for so many labels more. Where it is there, none is taken, and nothing is refused.
    pub fn reserve(&mut self, n: usize) -> Result<(), AllocError>
        ensures labels { self.new.labels ≡ self.old.labels }
        ensures spare { OnOk result (n ≤ self.new.spare) }
        ensures kept { self.old.spare ≤ self.new.spare }
        ensures sure { n ≤ self.old.spare → IsOk result }
    {
        self.items.reserve(n)
    }

    /// Adds a label behind the others. It takes no memory.
    pub fn push(&mut self, label: Label)
        requires { 1 ≤ self.old.spare }
        ensures labels { self.new.labels ≡ self.old.labels ++ label ∷ [] }
        ensures spare { self.old.spare ≤ self.new.spare + 1 }
    {
        self.items.push_reserved(label);
    }

    /// How many labels there are.
    pub fn len(&self) -> usize
        ensures { result ≡ length self.now.labels }
    {
        self.items.len()
    }

    /// Whether there is no label.
    pub fn is_empty(&self) -> bool
        ensures { IsTrue result ↔ (self.now.labels ≡ []) }
    {
        self.items.is_empty()
    }

    /// The label at a place, counted from 0.
    pub fn at(&self, place: usize) -> &Label
        requires { place < length self.now.labels }
        ensures { slice_get self.now.labels place ≡ Some result.now }
    {
        &self.items[place]
    }

    /// The labels in order.
    pub fn as_slice(&self) -> &[Label]
        ensures { result.now ≡ self.now.labels }
    {
        self.items.as_slice()
    }

    /// Keeps the first labels, so many of them. It takes no memory, and leaves the room of the others.
    pub fn cut(&mut self, len: usize)
        requires { len ≤ length self.old.labels }
        ensures labels { self.new.labels ≡ take len self.old.labels }
        ensures spare { self.old.spare ≤ self.new.spare }
        ensures room { self.old.spare + length self.old.labels ≤ self.new.spare + len }
    {
        self.items.truncate(len);
    }
}
