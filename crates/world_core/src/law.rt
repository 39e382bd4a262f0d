//! What holds of a world behind any run.
ghost use Rattle.world_core.specs.Runs.{NewBeginsRuns};
ghost use Rattle.world_core.specs.StepsLeft.{FewAreLeft};

use ckpt_machine::machine_law;

/// A new world shows the empty cluster, behind no label; and behind any run few steps are left of each call in hand. It
/// does nothing: its clauses stand in the proof of whoever calls it.
#[inline(always)]
pub fn world_law()
    ensures begins { NewBeginsRuns }
    ensures few { FewAreLeft }
{
    machine_law();
}
