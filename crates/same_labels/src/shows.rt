//! Whether two `show` lines tell the same.
ghost use Rattle.std.specs.Prelude.{◌≡◌, Decides, Some};

use crate::items::{Alike, same_items, same_text};
use run_labels::{ShownReplica, ShownReplicas, ShownSection, ShownSlot};

/// Whether the same replicas are shown, or none on either side.
pub(crate) fn same_shown(one: &Option<ShownReplicas>, other: &Option<ShownReplicas>) -> bool
    ensures { Decides result (one.now ≡ other.now) }
{
    match other {
        None => one.is_none(),
        Some(replicas) => shows(one, replicas),
    }
}

fn shows(shown: &Option<ShownReplicas>, replicas: &ShownReplicas) -> bool
    ensures { Decides result (shown.now ≡ Some replicas.now) }
{
    match shown {
        None => false,
        Some(other) => same_items(other.as_slice(), replicas.as_slice()),
    }
}

impl Alike for ShownReplica {
    fn is_like(&self, other: &ShownReplica) -> bool {
        if self.node != other.node {
            return false;
        }
        if self.active != other.active {
            return false;
        }
        if self.generation != other.generation {
            return false;
        }
        if self.count != other.count {
            return false;
        }
        if !same_slot(self.slot, other.slot) {
            return false;
        }
        same_items(self.sections.as_slice(), other.sections.as_slice())
    }
}

impl Alike for ShownSection {
    fn is_like(&self, other: &ShownSection) -> bool {
        if self.descriptor != other.descriptor {
            return false;
        }
        same_text(&self.first, &other.first)
    }
}

fn same_slot(one: ShownSlot, other: ShownSlot) -> bool
    ensures { Decides result (one ≡ other) }
{
    match other {
        ShownSlot::Free => matches!(one, ShownSlot::Free),
        ShownSlot::Held(call) => matches!(one, ShownSlot::Held(by) if by == call),
        ShownSlot::Mark(call) => matches!(one, ShownSlot::Mark(by) if by == call),
    }
}
