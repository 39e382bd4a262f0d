//! How many updates replicas have, as the failure of a node is told of it.
ghost use Rattle.std.specs.Prelude.{◌≡◌, ◌++◌, ◌∷◌, ◌<◌, [], length};
ghost use Rattle.cluster_record.specs.Counts.{counts_max, count_told, tells_of};

use arrayvec::ArrayVec;
use ckpt_types::{CHECKPOINTS_MAX, CkptId, NODES_MAX, NodeId};
use std::marker::Model;

/// The most counts that are told: one of each checkpoint on each node.
const COUNTS_MAX: usize = CHECKPOINTS_MAX * NODES_MAX;

/// How many updates the replica of a checkpoint on a node has.
#[derive(Clone, Copy, Default)]
pub struct UpdateCount {
    /// The checkpoint.
    pub ckpt: CkptId,
    /// The node of the replica.
    pub node: NodeId,
    /// The number of updates in it, from the making of the checkpoint on.
    pub count: u64,
}

/// The counts of replicas, at most 128, in place.
#[derive(Drop)]
pub struct Counts {
    told: ArrayVec<UpdateCount, COUNTS_MAX>,
}

impl Model for Counts {
    ghost use Rattle.std.specs.Prelude.{List};
    ghost use Rattle.cluster_record.specs.declared.counts.UpdateCount.{UpdateCount};

    ghost Value = { List UpdateCount };

    ghost view = { λ counts. counts.told.items };
}

impl Counts {
    /// None is told yet. It takes no memory.
    pub fn new() -> Counts
        ensures { result ≡ [] }
    {
        Counts {
            told: ArrayVec::new(),
        }
    }

    /// One more is told, where fewer than 128 are. It takes no memory.
    pub fn push(&mut self, told: UpdateCount)
        requires { length self.old < counts_max }
        ensures { self.new ≡ self.old ++ told ∷ [] }
    {
        self.told.push(told);
    }

    /// The count that is told of a checkpoint on a node, the first one; 0 where none is.
    pub fn of(&self, ckpt: CkptId, node: NodeId) -> u64
        ensures { result ≡ count_told self.now ckpt node }
    {
        first_count(self.told.as_slice(), ckpt, node)
    }
}

fn first_count(told: &[UpdateCount], ckpt: CkptId, node: NodeId) -> u64
    ensures { result ≡ count_told told.now ckpt node }
{
    for each in told {
        if tells_of(each, ckpt, node) {
            return each.count;
        }
    }
    0
}

fn tells_of(told: &UpdateCount, ckpt: CkptId, node: NodeId) -> bool
    ensures { result ≡ tells_of ckpt node told.now }
{
    told.ckpt == ckpt && told.node == node
}
