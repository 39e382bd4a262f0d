//! What goes with a checkpoint that is gone.
ghost use Rattle.std.specs.Prelude.{◌≡◌, ◌+◌, length};
ghost use Rattle.ckpt_types.specs.Limits.{checkpoints_max, nodes_max};
ghost use Rattle.world_core.specs.Freeing.{freed_world};

use crate::world::World;
use ckpt_types::{CHECKPOINTS_MAX, NODES_MAX};
use cluster_record::Record;

impl World {
    /// The replicas go, complete or reserved, and the background snapshots whose checkpoint has no entry in the record.
    /// It takes no memory.
    pub(crate) fn free_gone(&mut self)
        ensures new { self.new ≡ freed_world self.old }
        ensures eight { length self.old.nodes ≡ nodes_max }
    {
        self.nodes.free_gone(&self.cluster);
        self.snapshots.free_gone(&self.cluster);
    }

    /// The same, where a checkpoint is gone since `gone_by` gave this; else there is nothing to free.
    pub(crate) fn free_gone_since(&mut self, before: u64)
        requires none { before + length self.old.cluster.entries ≡ self.old.cluster.last_identity + checkpoints_max → freed_world self.old ≡ self.old }
        ensures new { self.new ≡ freed_world self.old }
        ensures eight { length self.old.nodes ≡ nodes_max }
    {
        prove!(self.nodes.count() == NODES_MAX);
        if gone_by(&self.cluster) != before {
            self.free_gone();
        }
    }
}

/// A number that rises by one with each checkpoint that goes, and stays with one that is made: that of the identities
/// given and of the places without an entry.
pub fn gone_by(cluster: &Record) -> u64
    ensures { result + length cluster.now.entries ≡ cluster.now.last_identity + checkpoints_max }
{
    cluster.last_identity() as u64 + (CHECKPOINTS_MAX - cluster.entries_len()) as u64
}
