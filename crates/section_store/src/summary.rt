//! What is known of all sections together, so that an update need not look at each.
ghost use Rattle.std.specs.Prelude.{◌≡◌, ◌<◌, ◌^◌};
ghost use Rattle.ckpt_types.specs.Sections.{memory_used, earliest_expiration};
ghost use Rattle.section_store.specs.Summary.{IsSummary, IsEarliestBut};

use crate::kept::Kept;
use ckpt_types::{Moment, NEVER, Sections};

/// What is kept of the sections beside them, so that no update has to go over all.
#[derive(Clone, Copy)]
pub(crate) struct Summary {
    /// The least expiration.
    pub earliest: Moment,
    /// How many bytes the sections have together.
    pub used: usize,
    /// From 1 on, the numbers below this one are all taken by sections.
    pub first: u64,
}

impl Summary {
    /// What others keep of their sections, with no number counted as taken.
    pub fn of_others<S: Sections>(others: &S) -> Summary
        ensures { IsSummary result (S.sections others.now) }
    {
        Summary {
            earliest: others.earliest(),
            used: others.sum() as usize,
            first: 1,
        }
    }

    /// What is kept of these sections, with no number counted as taken.
    pub fn of(kept: &Kept) -> Summary
        requires { memory_used kept.now.sections < 2 ^ 64 }
        ensures { IsSummary result kept.now.sections }
    {
        let mut earliest = NEVER;
        let mut used = 0;
        for place in 0..kept.len() {
            earliest = earliest.min(kept.expiration(place));
            used += kept.size(place);
        }
        Summary {
            earliest,
            used,
            first: 1,
        }
    }
}

/// The least expiration, where it was `earliest` while one section more had this expiration, or had it still.
pub(crate) fn earliest_without(kept: &Kept, earliest: Moment, gone: Moment) -> Moment
    requires { IsEarliestBut gone earliest kept.now.sections }
    ensures { result ≡ earliest_expiration kept.now.sections }
{
    if earliest < gone || gone == NEVER {
        return earliest;
    }
    let mut least = NEVER;
    for place in 0..kept.len() {
        least = least.min(kept.expiration(place));
    }
    least
}
