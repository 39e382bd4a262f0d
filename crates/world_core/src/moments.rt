//! The event that sets the moment.
ghost use Rattle.std.specs.Prelude.{◌≤◌};
ghost use Rattle.cluster_record.specs.RecordState.{IsMomentFrom};
ghost use Rattle.world_core.specs.Happenings.{Adds, SetsMoment};

use crate::world::World;
use ckpt_types::Moment;
use run_labels::{Label, RunLog};

impl World {
    /// The moment is set, and what is over then is swept away.
    pub(crate) fn at(&mut self, t: Moment, log: &mut RunLog)
        requires moment { IsMomentFrom self.old.cluster.moment t }
        requires spare { 1 ≤ log.old.spare }
        ensures { Adds log.old log.new (SetsMoment t self.old self.new) }
    {
        if self.cluster.set_moment(t) {
            self.free_gone();
        }
        log.push(Label::Moved(t));
    }
}
