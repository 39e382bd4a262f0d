//! What the sections that are present come to.
ghost use Rattle.std.specs.Prelude.{◌≡◌, ◌<◌, ◌^◌, length};
ghost use Rattle.ckpt_types.specs.Sections.{present, memory_used};

use crate::identities::Moment;
use crate::sections::{Sections, Totals};

/// How many sections are present, and how many bytes they have together.
#[inline(always)]
pub fn totals<S: Sections>(sections: &S, now: Moment) -> Totals
    ensures count { result.count ≡ length (present now (S.sections sections.now)) }
    ensures bytes { result.bytes ≡ memory_used (present now (S.sections sections.now)) }
{
    let bytes = sections.sum();
    if now < sections.earliest() {
        let count = sections.len();
        return Totals { count, bytes };
    }
    totals_of_present(sections, now)
}

/// The same, section by section, where some may be absent.
#[inline(never)]
fn totals_of_present<S: Sections>(sections: &S, now: Moment) -> Totals
    requires { memory_used (S.sections sections.now) < 2 ^ 64 }
    ensures count { result.count ≡ length (present now (S.sections sections.now)) }
    ensures bytes { result.bytes ≡ memory_used (present now (S.sections sections.now)) }
{
    let mut count = 0;
    let mut bytes = 0;
    for place in 0..sections.len() {
        let section = sections.at(place);
        if section.is_present(now) {
            count += 1;
            bytes += section.bytes.len() as u64;
        }
    }
    Totals { count, bytes }
}
