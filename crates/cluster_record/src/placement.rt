//! On which nodes a checkpoint is made, and where an open adds a replica.
ghost use Rattle.std.specs.Prelude.{◌≡◌, slice_index};
ghost use Rattle.cluster_record.specs.Placement.{is_all, is_collocated, alone_on, targets, adds};

use ckpt_types::{CHECKPOINT_COLLOCATED, CreationAttributes, NODES_MAX, NodeId, WR_ALL_REPLICAS};

/// Whether an update is on all replicas before it is answered.
pub fn is_all(attributes: &CreationAttributes) -> bool
    ensures { result ≡ is_all attributes.now }
{
    attributes.creation_flags == WR_ALL_REPLICAS
}

/// Whether a checkpoint has its replicas on the nodes of those that open it.
pub fn is_collocated(attributes: &CreationAttributes) -> bool
    ensures { result ≡ is_collocated attributes.now }
{
    attributes.creation_flags & CHECKPOINT_COLLOCATED != 0
}

// By node, the incarnation of this one, and 0 for the others.
fn alone_on(node: NodeId, up: &[u32; NODES_MAX]) -> [u32; NODES_MAX]
    ensures { result ≡ alone_on node up.now }
{
    let mut nodes = [0; NODES_MAX];
    let place = node as usize;
    if place < NODES_MAX {
        nodes[place] = up[place];
    }
    nodes
}

/// By node, the incarnation in which a checkpoint is made there, or 0: it is made on all nodes that are up, a
/// collocated one on that of its opener.
pub(crate) fn targets(
    attributes: &CreationAttributes,
    opener: NodeId,
    up: &[u32; NODES_MAX],
) -> [u32; NODES_MAX]
    ensures { result ≡ targets attributes.now opener up.now }
{
    if is_collocated(attributes) {
        alone_on(opener, up)
    } else {
        *up
    }
}

/// Whether an open from this node adds a replica there: the checkpoint is collocated, and not complete on it.
pub(crate) fn adds(
    attributes: &CreationAttributes,
    opener: NodeId,
    complete: &[u32; NODES_MAX],
) -> bool
    ensures { result ≡ adds attributes.now opener complete.now }
{
    is_collocated(attributes) && incarnation_at(complete, opener) == 0
}

/// The incarnation that such a list has of a node; 0 of one that is none of the cluster's.
pub(crate) fn incarnation_at(nodes: &[u32; NODES_MAX], node: NodeId) -> u32
    ensures { result ≡ slice_index nodes.now node }
{
    let place = node as usize;
    if place < NODES_MAX { nodes[place] } else { 0 }
}
