//! The event by which a node fails.
ghost use Rattle.std.specs.Prelude.{◌≡◌, ◌<◌, ◌≤◌, true};
ghost use Rattle.ckpt_types.specs.Limits.{nodes_max};
ghost use Rattle.cluster_record.specs.RecordState.{is_up};
ghost use Rattle.world_core.specs.Failing.{failed_world};
ghost use Rattle.world_core.specs.Happenings.{Adds, Fails};
ghost use Rattle.world_core.specs.Shows.{IsShown, HasNumbersLeft};

use crate::world::World;
use ckpt_types::NodeId;
use cluster_nodes::counts_of;
use run_labels::{Label, RunLog};

impl World {
    /// A node fails, where it is up: its clients go with it, and its replicas. It takes no memory.
    pub(crate) fn fail(&mut self, r: NodeId, log: &mut RunLog)
        requires node { r < nodes_max }
        requires shown { IsShown self.old }
        requires roomy { HasNumbersLeft self.old }
        requires spare { 1 ≤ log.old.spare }
        ensures { Adds log.old log.new (Fails r self.old self.new) }
    {
        let was_up = self.cluster.is_up(r);
        if was_up {
            self.lose(r);
        }
        log.push(Label::Failed(r, was_up));
    }

    // What goes with a node that is up goes, and the others are left with the rest.
    fn lose(&mut self, r: NodeId)
        requires up { is_up r self.old.cluster ≡ true }
        requires shown { IsShown self.old }
        requires roomy { HasNumbersLeft self.old }
        ensures { self.new ≡ failed_world r self.old }
    {
        self.hands.cut_off(&self.cluster, r);
        self.tables.cut_off(&self.cluster, r);
        let counts = counts_of(&self.cluster, &self.nodes);
        self.cluster.fail(r, &counts);
        self.cluster.sweep();
        self.nodes.fail(&self.cluster, r);
        self.snapshots.free_gone(&self.cluster);
    }
}
