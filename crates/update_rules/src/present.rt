//! The sections that a rule sees: those that are present at the moment.
ghost use Rattle.std.specs.Prelude.{◌≡◌, ◌<◌, length, IfSome};
ghost use Rattle.ckpt_types.specs.Sections.{Rises, present};
ghost use Rattle.update_rules.specs.Present.{size_at, place_present};

use ckpt_types::{Moment, Sections};

/// How many bytes the section of that identifier has, where it is present.
pub(crate) fn size_present<S: Sections>(sections: &S, id: &[u8], now: Moment) -> Option<u64>
    requires in_order { Rises (S.sections sections.now) }
    ensures { result ≡ size_at id.now (present now (S.sections sections.now)) }
{
    let place = find_present(sections, id, now)?;
    Some(sections.at(place).bytes.len() as u64)
}

/// Where the section of that identifier stands among all, where it is present.
#[inline(always)]
pub(crate) fn find_present<S: Sections>(sections: &S, id: &[u8], now: Moment) -> Option<usize>
    requires in_order { Rises (S.sections sections.now) }
    ensures found { result ≡ place_present id.now now (S.sections sections.now) }
    ensures within { IfSome result (λ place. place < length (S.sections sections.now)) }
{
    let place = sections.find(id)?;
    if sections.at(place).is_present(now) {
        Some(place)
    } else {
        None
    }
}
