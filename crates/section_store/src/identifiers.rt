//! The identifiers that the service makes for new sections: the least number that is free.
ghost use Rattle.std.specs.Prelude.{◌≡◌, ◌<◌, ◌≤◌, ◌^◌, ℕ, length, insert, remove, is_some, IfSome};
ghost use Rattle.ckpt_types.specs.Limits.{section_id_max};
ghost use Rattle.ckpt_types.specs.Sections.{Section, Rises, is_taken, place_of, present};
ghost use Rattle.ckpt_types.specs.Updates.{free_number, new_id, numbered_id};
ghost use Rattle.section_store.specs.Summary.{AreTaken};

use crate::kept::Kept;
use crate::order::find;
use ckpt_types::{Moment, NewId, SectionId};

/// The identifier of a new section, and a number below which all are taken once it is there.
#[derive(Clone, Copy)]
pub(crate) struct Made {
    pub id: SectionId,
    pub first: u64,
}

/// The identifier of a new section, where all numbers below the first one are taken.
pub(crate) fn new_id(new: &NewId, kept: &Kept, first: u64, now: Moment) -> Made
    requires rises { Rises kept.now.sections }
    requires few { length kept.now.sections < 2 ^ 32 }
    requires taken { AreTaken first (present now kept.now.sections) }
    requires short { length (new_id new.now (present now kept.now.sections)) ≤ section_id_max }
    ensures id { result.id ≡ new_id new.now (present now kept.now.sections) }
    ensures first { (place : ℕ) → (s : Section) → s.id ≡ result.id → AreTaken result.first (insert (present now kept.now.sections) place s) }
{
    match new {
        NewId::Given(id) => {
            let Some(id) = SectionId::from_slice(id.as_slice()) else {
                unreachable!()
            };
            Made { id, first }
        }
        NewId::Generated => {
            let number = free_number(kept, first, now);
            Made {
                id: numbered(number),
                first: number + 1,
            }
        }
    }
}

/// The least number that is free, where all below the first one that is tried are taken.
pub(crate) fn free_number(kept: &Kept, first: u64, now: Moment) -> u64
    requires rises { Rises kept.now.sections }
    requires few { length kept.now.sections < 2 ^ 32 }
    requires taken { AreTaken first (present now kept.now.sections) }
    ensures { result ≡ free_number (present now kept.now.sections) }
{
    let mut number = first;
    let mut near = 0;
    while let Some(place) = place_taken(kept, number, near, now) {
        number += 1;
        near = place + 1;
    }
    number
}

/// A number up to which all are taken still when the section at a place is gone.
pub(crate) fn first_without(kept: &Kept, first: u64, place: usize) -> u64
    requires there { place < length kept.now.sections }
    requires taken { AreTaken first kept.now.sections }
    ensures { AreTaken result (remove kept.now.sections place) }
{
    first.min(kept.id(place).key().max(1))
}

/// The identifier of a number.
pub(crate) fn numbered(number: u64) -> SectionId
    ensures { result ≡ numbered_id number }
{
    let Some(id) = SectionId::from_slice(&number.to_be_bytes()) else {
        unreachable!()
    };
    id
}

/// The place of the section of that number, which is looked for at `near` first.
fn find_number(kept: &Kept, number: u64, near: usize) -> Option<usize>
    requires { Rises kept.now.sections }
    ensures place { result ≡ place_of (numbered_id number) kept.now.sections }
    ensures within { IfSome result (λ place. place < length kept.now.sections) }
{
    if near < kept.len() && kept.id(near).is_number(number) {
        Some(near)
    } else {
        find(kept, numbered(number).as_slice())
    }
}

/// The place of the section of that number, where it is present. It is looked for at `near` first.
fn place_taken(kept: &Kept, number: u64, near: usize, now: Moment) -> Option<usize>
    requires { Rises kept.now.sections }
    ensures taken { is_some result ≡ is_taken (numbered_id number) (present now kept.now.sections) }
    ensures within { IfSome result (λ place. place < length kept.now.sections) }
{
    match find_number(kept, number, near) {
        Some(place) if kept.is_present(place, now) => Some(place),
        _ => None,
    }
}
