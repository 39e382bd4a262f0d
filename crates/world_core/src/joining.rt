//! The event by which a node joins.
ghost use Rattle.std.specs.Prelude.{◌≡◌, ◌<◌, ◌≤◌};
ghost use Rattle.ckpt_types.specs.Limits.{nodes_max};
ghost use Rattle.ckpt_machine.specs.NodeJoins.{join_answer};
ghost use Rattle.world_core.specs.Happenings.{Adds, Joins};
ghost use Rattle.world_core.specs.NodeJoins.{behind_join};
ghost use Rattle.world_core.specs.Shows.{HasNumbersLeft};

use crate::world::World;
use ckpt_types::{Incarnation, NodeId};
use run_labels::{Label, RunLog};

impl World {
    /// A node joins, where it is not up: it comes with no client and no replica. It takes no memory.
    pub(crate) fn join(&mut self, r: NodeId, log: &mut RunLog)
        requires node { r < nodes_max }
        requires roomy { HasNumbersLeft self.old }
        requires spare { 1 ≤ log.old.spare }
        ensures { Adds log.old log.new (Joins r self.old self.new) }
    {
        let incarnation = self.come_up(r);
        log.push(Label::Joined(r, incarnation));
    }

    // A node that is not up is so from then on, in the incarnation that is answered.
    fn come_up(&mut self, r: NodeId) -> Option<Incarnation>
        requires node { r < nodes_max }
        requires roomy { HasNumbersLeft self.old }
        ensures answer { result ≡ join_answer r self.old.cluster }
        ensures new { self.new ≡ behind_join r self.old }
    {
        if self.cluster.is_up(r) {
            return None;
        }
        Some(self.cluster.join(r, self.numbers[r as usize]))
    }
}
