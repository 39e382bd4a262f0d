//! How a node that comes back comes to be complete for a checkpoint.
ghost use Rattle.std.specs.Prelude.{◌≡◌, ◌-◌, ◌^◌, ◌<◌};
ghost use Rattle.cluster_record.specs.Joining.{can_complete, with_node, led_by_lowest, completed_on};

use crate::entries::{Entry, first_complete, is_active};
use crate::placement::{incarnation_at, is_all, is_collocated};
use ckpt_types::{Incarnation, NODES_MAX, NodeId};

/// The node is complete for the entry from then on, with this incarnation, which is 0 where it is not up; and the active
/// is chosen anew. Nothing changes where the checkpoint is in the making or collocated, where the node is not up, or where
/// it is complete already. That is rare, and kept out of line, so that other changes stay short.
#[inline(never)]
pub(crate) fn complete_with(entry: &mut Entry, node: NodeId, incarnation: Incarnation)
    requires { entry.old.generation < 2 ^ 64 - 1 }
    ensures { entry.new ≡ completed_on node incarnation entry.old }
{
    if can_complete(entry, node, incarnation) {
        add_node(entry, node, incarnation);
        lead_lowest(entry);
    }
}

// Whether a node that is up with this incarnation, or not up where that is 0, can come to be complete for the entry.
fn can_complete(entry: &Entry, node: NodeId, incarnation: Incarnation) -> bool
    ensures { result ≡ can_complete node incarnation entry.now }
{
    entry.making.is_none()
        && !is_collocated(&entry.attributes)
        && incarnation != 0
        && incarnation_at(&entry.complete, node) == 0
}

// The node is complete for it, with this incarnation.
fn add_node(entry: &mut Entry, node: NodeId, incarnation: Incarnation)
    ensures { entry.new ≡ with_node node incarnation entry.old }
{
    let place = node as usize;
    if place < NODES_MAX {
        entry.complete[place] = incarnation;
    }
}

// Where updates are on all replicas, the lowest complete node is its active, and the generation rises by one exactly
// where another was the active, or none.
fn lead_lowest(entry: &mut Entry)
    requires { entry.old.generation < 2 ^ 64 - 1 }
    ensures { entry.new ≡ led_by_lowest entry.old }
{
    if !is_all(&entry.attributes) {
        return;
    }
    if let Some(lowest) = first_complete(&entry.complete) {
        if !is_active(entry.active, lowest) {
            entry.generation += 1;
        }
        entry.active = Some(lowest);
    }
}
