//! What the failure of a node makes of a client's call in hand.
ghost use Rattle.std.specs.Prelude.{◌≡◌, None, if◌then◌else◌};
ghost use Rattle.ckpt_types.specs.Asks.{asked};
ghost use Rattle.cluster_record.specs.Failing.{goes_with_node};
ghost use Rattle.ckpt_machine.specs.Failing.{enters_on, is_of_node};
ghost use Rattle.client_calls.specs.Abandoning.{place_left};

use crate::copy_hand::{CopyHand, clear_copy};
use crate::in_hand::{InHand, clear};
use ckpt_types::{ActorName, NodeId, Op};
use cluster_record::Record;

/// The call of a place is in hand no more where the failure of a node abandons it: where it is of a client on the node, or
/// is an Initialize that names the node.
pub fn unless_abandoned(place: &mut Option<InHand>, cluster: &Record, node: NodeId)
    ensures { place.new ≡ place_left cluster.now node place.old }
{
    if is_abandoned(place, cluster, node) {
        clear(place);
    }
}

/// The same of a node's copying, which is abandoned where its node fails.
pub fn copy_unless_abandoned(place: &mut Option<CopyHand>, cluster: &Record, node: NodeId)
    ensures { place.new ≡ place_left cluster.now node place.old }
{
    if is_copy_abandoned(place, cluster, node) {
        clear_copy(place);
    }
}

// Whether the copying of a place is abandoned.
fn is_copy_abandoned(place: &Option<CopyHand>, cluster: &Record, node: NodeId) -> bool
    ensures { place_left cluster.now node place.now ≡ (if result then None else place.now) }
{
    match place {
        None => false,
        Some(hand) => is_of_node(hand.call().actor, cluster, node),
    }
}

// Whether the call of a place is abandoned.
fn is_abandoned(place: &Option<InHand>, cluster: &Record, node: NodeId) -> bool
    ensures { place_left cluster.now node place.now ≡ (if result then None else place.now) }
{
    match place {
        None => false,
        Some(hand) => is_of_node(hand.call.actor, cluster, node) || enters_on(&hand.op, node),
    }
}

// Whether the actor is a client on the node, or the node itself.
fn is_of_node(actor: ActorName, cluster: &Record, node: NodeId) -> bool
    ensures { result ≡ is_of_node cluster.now node actor }
{
    match actor {
        ActorName::Client(client) => is_on(cluster, client, node),
        ActorName::Node(other) => other == node,
    }
}

/// Whether the client is live, on this node.
pub(crate) fn is_on(cluster: &Record, client: u8, node: NodeId) -> bool
    ensures { result ≡ goes_with_node cluster.now node client }
{
    match cluster.node_of(client) {
        None => false,
        Some(home) => home == node,
    }
}

// Whether the operation is an Initialize that names the node.
fn enters_on(op: &Op, node: NodeId) -> bool
    ensures { result ≡ enters_on node (asked op.now) }
{
    match op {
        Op::Client(home, _, _) => *home == node,
        _ => false,
    }
}
