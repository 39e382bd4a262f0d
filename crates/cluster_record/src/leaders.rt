//! Who is the active of a checkpoint whose active is gone.
ghost use Rattle.std.specs.Prelude.{◌≡◌};
ghost use Rattle.cluster_record.specs.Counts.{count_told};
ghost use Rattle.cluster_record.specs.Failing.{with_more, most_updated, next_active};

use crate::counts::Counts;
use crate::entries::first_complete;
use crate::placement::{is_all, is_collocated};
use ckpt_types::{CkptId, CreationAttributes, NODES_MAX, NodeId};

/// By the nodes that are complete still: none of a collocated checkpoint, until a client sets one; where updates are on
/// all replicas, the lowest; else the one whose replica has the most updates, the lowest of those that have as many.
pub(crate) fn next_active(
    attributes: &CreationAttributes,
    complete: &[u32; NODES_MAX],
    ckpt: CkptId,
    counts: &Counts,
) -> Option<NodeId>
    ensures { result ≡ next_active (count_told counts.now ckpt) attributes.now complete.now }
{
    if is_collocated(attributes) {
        None
    } else if is_all(attributes) {
        first_complete(complete)
    } else {
        most_updated(complete, ckpt, counts)
    }
}

// Of the complete nodes the lowest of those with the most updates.
fn most_updated(complete: &[u32; NODES_MAX], ckpt: CkptId, counts: &Counts) -> Option<NodeId>
    ensures { result ≡ most_updated (count_told counts.now ckpt) 0 complete.now }
{
    let mut most = None;
    for r in (0..NODES_MAX as u8).rev() {
        if complete[r as usize] != 0 {
            most = Some(with_more(r, most, ckpt, counts));
        }
    }
    most
}

// The one with more updates of a node and of what was found behind it.
fn with_more(node: NodeId, behind: Option<NodeId>, ckpt: CkptId, counts: &Counts) -> NodeId
    ensures { result ≡ with_more (count_told counts.now ckpt) node behind }
{
    match behind {
        Some(other) if counts.of(ckpt, node) < counts.of(ckpt, other) => other,
        _ => node,
    }
}
