//! Marks: none, or those of the one weak write that is under way.
ghost use Rattle.std.specs.Prelude.{◌≡◌, ◌-◌, ◌<◌, ◌^◌, true, None, Some, IfOk, MatchOption, length, slice_get};
ghost use Rattle.weak_marks.specs.Marks.{call_of, elements_in, is_left, is_left_of, next_place, with_next_done, IsBegin, IsMarkedBy};

use ckpt_types::{CallId, Held, IoElement, Moment, SharedUpdate, Update};
use std::alloc::{AllocError, Global};
use std::marker::Model;

/// A weak write that is under way.
#[derive(Drop)]
pub struct Marked {
    /// The call whose write it is.
    pub call: CallId,
    /// The write.
    pub update: SharedUpdate,
    /// The moment at which all its elements are done.
    pub moment: Moment,
    /// How many of its elements are done.
    pub done: u32,
    /// The generation of the replica when it began.
    pub generation: u64,
}

impl Model for Marked {
    ghost use Rattle.weak_marks.specs.Marks.{Marked};

    ghost Value = { Marked };

    ghost use Rattle.weak_marks.specs.MarksView.{marked_shown};

    ghost view = { marked_shown };
}

impl Marked {
    /// The element that is done next; nothing where all are done.
    pub fn next(&self) -> Option<&IoElement>
        ensures { MatchOption result (slice_get (elements_in self.now.update) self.now.done ≡ None) (λ element. slice_get (elements_in self.now.update) self.now.done ≡ Some element.now) }
    {
        elements_in(self.update.value()).get(self.done as usize)
    }

    /// The elements of the write.
    pub fn elements(&self) -> &[IoElement]
        ensures value { result.now ≡ elements_in self.now.update }
        ensures few { length result.now < 2 ^ 32 }
    {
        elements_in(self.update.value())
    }

    /// Whether an element is left that is not done.
    pub fn left(&self) -> bool
        ensures value { result ≡ is_left self.now }
        ensures room { result ≡ true → self.now.done < 2 ^ 32 - 1 }
    {
        (self.done as usize) < self.elements().len()
    }

    // An equal one, with a share of the write.
    fn copy(&self) -> Result<Marked, AllocError>
        ensures { IfOk result (λ copy. copy ≡ self.now) }
    {
        Ok(Marked {
            call: self.call,
            update: self.update.share()?,
            moment: self.moment,
            done: self.done,
            generation: self.generation,
        })
    }
}

/// Room for the marks of one weak write. They take no memory.
#[derive(Drop)]
pub struct Marks {
    marked: Option<Marked>,
}

impl Model for Marks {
    ghost use Rattle.std.specs.Prelude.{Option};
    ghost use Rattle.weak_marks.specs.Marks.{Marked};

    ghost Value = { Option Marked };

    ghost use Rattle.weak_marks.specs.MarksView.{marks_shown};

    ghost view = { marks_shown };
}

impl Marks {
    /// No marks stand.
    pub fn empty() -> Marks
        ensures { result ≡ None }
    {
        Marks { marked: None }
    }

    /// The write that is under way; nothing where no marks stand.
    pub fn kept(&self) -> Option<&Marked>
        ensures { MatchOption result (self.now ≡ None) (λ marked. self.now ≡ Some marked.now) }
    {
        self.marked.as_ref()
    }

    /// The call that made the marks, where they stand.
    pub fn call(&self) -> Option<CallId>
        ensures { result ≡ call_of self.now }
    {
        match &self.marked {
            None => None,
            Some(marked) => Some(marked.call),
        }
    }

    /// Whether marks stand with an element that is not done.
    pub fn left(&self) -> bool
        ensures { result ≡ is_left_of self.now }
    {
        match &self.marked {
            None => false,
            Some(marked) => marked.left(),
        }
    }

    /// The weak write of a call begins, on a replica of this generation. Where the marks of another call stand, they
    /// stay, and `Held` names that call.
    pub fn begin(
        &mut self,
        by: CallId,
        update: SharedUpdate,
        moment: Moment,
        generation: u64,
    ) -> Result<(), Held>
        ensures { IsBegin (record { call = by; update = update; moment = moment; done = 0; generation = generation }) self.old result self.new }
    {
        if let Some(marked) = &self.marked {
            if marked.call != by {
                return Err(Held { by: marked.call });
            }
        }
        self.marked = Some(Marked {
            call: by,
            update,
            moment,
            done: 0,
            generation,
        });
        Ok(())
    }

    /// The place of the element that is done next, which counts as done from then on; nothing where all are done.
    pub fn element(&mut self, by: CallId) -> Option<u32>
        requires own { IsMarkedBy by self.old }
        ensures place { result ≡ next_place self.old }
        ensures new { self.new ≡ with_next_done self.old }
    {
        let Some(marked) = &mut self.marked else {
            unreachable!()
        };
        prove!(marked.call == by);
        if !marked.left() {
            return None;
        }
        let place = marked.done;
        marked.done += 1;
        Some(place)
    }

    /// The marks of a call go.
    pub fn end(&mut self, by: CallId)
        requires own { IsMarkedBy by self.old }
        ensures { self.new ≡ None }
    {
        let Some(marked) = &self.marked else {
            unreachable!()
        };
        prove!(marked.call == by);
        self.marked = None;
    }

    /// Equal marks, with a share of the write. It takes no memory, and fails only where the shares can't be counted.
    pub fn copy(&self, _alloc: Global) -> Result<Marks, AllocError>
        ensures { IfOk result (λ copy. copy ≡ self.now) }
    {
        match &self.marked {
            None => Ok(Marks::empty()),
            Some(marked) => {
                let copy = marked.copy()?;
                Ok(Marks { marked: Some(copy) })
            }
        }
    }
}

// The elements of a write; any other update has none.
fn elements_in(update: &Update) -> &[IoElement]
    ensures value { result.now ≡ elements_in update.now }
    ensures few { length result.now < 2 ^ 32 }
{
    match update {
        Update::Write(elements) => elements.as_slice(),
        _ => &[],
    }
}
