//! Of the identifiers kept, the first whose section is present now.
ghost use Rattle.std.specs.Prelude.{◌≡◌, ◌+◌, ◌<◌, ◌≤◌, length, drop, IfSome};
ghost use Rattle.std.specs.Option.{option_map};
ghost use Rattle.ckpt_types.specs.Reads.{given, description};
ghost use Rattle.ckpt_types.specs.Sections.{section_at, present};
ghost use Rattle.section_iter.specs.Ids.{ids_in, AreIds};

use crate::ids::id_at;
use ckpt_types::{Moment, SectionDescriptor, Sections};

/// A section that is present, and the place of its identifier.
#[derive(Clone, Copy)]
pub(crate) struct Found {
    pub(crate) place: usize,
    pub(crate) section: SectionDescriptor,
}

/// The first of the identifiers, from a place on, whose section is present.
pub(crate) fn find_first<S: Sections>(
    sections: &S,
    bytes: &[u8],
    ends: &[u32],
    from: usize,
    now: Moment,
) -> Option<Found>
    requires kept { AreIds ends.now bytes.now }
    requires begun { from ≤ length ends.now }
    ensures section { option_map (λ f. f.section) result ≡ option_map (λ next. description next.section) (given (drop from (ids_in ends.now bytes.now)) now (S.sections sections.now)) }
    ensures rest { option_map (λ f. drop (f.place + 1) (ids_in ends.now bytes.now)) result ≡ option_map (λ next. next.rest) (given (drop from (ids_in ends.now bytes.now)) now (S.sections sections.now)) }
    ensures within { IfSome result (λ f. f.place < length ends.now) }
{
    for place in from..ends.len() {
        let id = id_at(bytes, ends, place);
        if let Some(section) = describe_present(sections, id, now) {
            return Some(Found { place, section });
        }
    }
    None
}

/// What is told of the section of that identifier, where it is present.
fn describe_present<S: Sections>(sections: &S, id: &[u8], now: Moment) -> Option<SectionDescriptor>
    ensures { result ≡ option_map description (section_at id.now (present now (S.sections sections.now))) }
{
    // The clause of `len` tells that the identifiers rise.
    let _count = sections.len();
    let place = sections.find(id)?;
    let section = sections.at(place);
    if section.is_present(now) {
        Some(section.describe())
    } else {
        None
    }
}
