//! What the failure of a node makes of the replicas of this one, by the record behind it.
ghost use Rattle.std.specs.Prelude.{◌≡◌};
ghost use Rattle.cluster_record.specs.RecordState.{entry_of};
ghost use Rattle.node_core.specs.Failing.{change_due, clear_due, first_due, is_cut_short, is_to_lead};

use ckpt_types::NodeId;
use cluster_record::{Entry, Record, is_active};
use node_msgs::NodeChange;
use replica::Replica;

/// The first change that is due at one of the replicas of a node that has not failed.
pub(crate) fn first_due(replicas: &[Replica], number: NodeId, seen: &Record) -> Option<NodeChange>
    ensures { result ≡ first_due seen.now number replicas.now }
{
    for replica in replicas {
        let due = change_due(replica, number, seen);
        if due.is_some() {
            return due;
        }
    }
    None
}

/// On the node that failed all replicas go, where there are any.
pub(crate) fn clear_due(replicas: &[Replica]) -> Option<NodeChange>
    ensures { result ≡ clear_due replicas.now }
{
    if replicas.is_empty() {
        return None;
    }
    Some(NodeChange::Clear)
}

// The change that is due at a replica: it goes with its checkpoint, its weak write that was cut short ends, and it gets
// the generation where its node is the new active.
fn change_due(replica: &Replica, number: NodeId, seen: &Record) -> Option<NodeChange>
    ensures { result ≡ change_due seen.now number (entry_of replica.now.ckpt seen.now.entries) replica.now }
{
    let ckpt = replica.ckpt();
    let Some(entry) = seen.entry(ckpt) else {
        return Some(NodeChange::Drop(ckpt));
    };
    if is_cut_short(replica, seen) {
        return Some(NodeChange::Break(ckpt));
    }
    if is_to_lead(replica, number, entry) {
        return Some(NodeChange::Lead(ckpt, entry.generation));
    }
    None
}

// Whether marks stand of a weak write whose call is not live.
fn is_cut_short(replica: &Replica, seen: &Record) -> bool
    ensures { result ≡ is_cut_short seen.now replica.now.marks }
{
    match replica.marked_by() {
        None => false,
        Some(call) => !seen.live(call),
    }
}

// Whether the node is the active, and its replica is of another generation than the checkpoint.
fn is_to_lead(replica: &Replica, number: NodeId, entry: &Entry) -> bool
    ensures { result ≡ is_to_lead number entry.now replica.now }
{
    is_active(entry.active, number) && replica.generation() != entry.generation
}
