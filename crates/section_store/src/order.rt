//! Where a section stands in the order of the identifiers.
ghost use Rattle.std.specs.Prelude.{◌≡◌, ◌≤◌, ◌<◌, length, ok_or, IfSome};
ghost use Rattle.ckpt_types.specs.Sections.{Rises, place_of};
ghost use Rattle.section_store.specs.Places.{count_below};

use crate::kept::Kept;
use crate::keyed::{compare, key_of};
use std::cmp::Ordering;

/// Where the section of that identifier would stand.
pub(crate) fn place_for(kept: &Kept, id: &[u8]) -> usize
    requires { Rises kept.now.sections }
    ensures place { result ≡ count_below id.now kept.now.sections }
    ensures within { result ≤ length kept.now.sections }
{
    match search(kept, id) {
        Ok(place) => place,
        Err(place) => place,
    }
}

/// The place of the section of that identifier.
pub(crate) fn find(kept: &Kept, id: &[u8]) -> Option<usize>
    requires { Rises kept.now.sections }
    ensures place { result ≡ place_of id.now kept.now.sections }
    ensures within { IfSome result (λ place. place < length kept.now.sections) }
{
    search(kept, id).ok()
}

/// The place of the section of that identifier. It is looked for at `near` first.
#[inline(always)]
pub(crate) fn find_near(kept: &Kept, id: &[u8], near: usize) -> Option<usize>
    requires { Rises kept.now.sections }
    ensures place { result ≡ place_of id.now kept.now.sections }
    ensures within { IfSome result (λ place. place < length kept.now.sections) }
{
    if near < kept.len() && kept.id(near).is_id(id) {
        Some(near)
    } else {
        find(kept, id)
    }
}

/// The place of the section of that identifier, or else where it would stand.
#[inline(always)]
fn search(kept: &Kept, id: &[u8]) -> Result<usize, usize>
    requires { Rises kept.now.sections }
    ensures { result ≡ ok_or (place_of id.now kept.now.sections) (count_below id.now kept.now.sections) }
{
    let key = key_of(id);
    let mut low = 0;
    let mut high = kept.len();
    while low < high {
        let middle = low + (high - low) / 2;
        match compare(id, key, kept.id(middle)) {
            Ordering::Greater => low = middle + 1,
            Ordering::Less => high = middle,
            Ordering::Equal => return Ok(middle),
        }
    }
    Err(low)
}
