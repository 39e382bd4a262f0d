//! A node's part of a step of the record.
ghost use Rattle.std.specs.Prelude.{◌≡◌, None, IsSomeAnd};
ghost use Rattle.cluster_record.specs.Places.{find_key, change_key};
ghost use Rattle.replica.specs.Replicas.{abandoned, staged};
ghost use Rattle.node_core.specs.Changing.{filled_by, taken_lent, LendsInto, TakesLent, TakesStage};
ghost use Rattle.node_core.specs.Nodes.{replica_key};
ghost use Rattle.node_core.specs.Payloads.{update_or};

use crate::lent::Lent;
use crate::replicas::{find_at, place_of};
use crate::serving::stage_in;
use crate::snapshots::{fill_lent, take_lent};
use ckpt_types::{CallId, CkptId, Moment};
use replica::Replica;

/// The replica of a checkpoint gets a slot of the call, with the update that is lent.
pub(crate) fn stage_at(
    replicas: &mut [Replica],
    call: CallId,
    ckpt: CkptId,
    moment: Moment,
    lent: &mut Lent,
)
    requires { IsSomeAnd (find_key replica_key ckpt replicas.old) (TakesStage lent.old moment) }
    ensures new { replicas.new ≡ change_key replica_key ckpt (staged call (update_or lent.old.update) moment) replicas.old }
    ensures lent { lent.new ≡ record lent.old { update = None } }
{
    let Some(update) = lent.update.take() else {
        unreachable!()
    };
    // It refuses nothing here.
    let _done = stage_in(replicas, call, ckpt, moment, update);
}

/// The snapshot that is lent has what the replica of a checkpoint has.
pub(crate) fn lend_at(replicas: &[Replica], ckpt: CkptId, lent: &mut Lent)
    requires { IsSomeAnd (find_key replica_key ckpt replicas.now) (LendsInto lent.old) }
    ensures { lent.new ≡ record lent.old { snap = filled_by (find_key replica_key ckpt replicas.now) lent.old.snap } }
{
    let Some(replica) = find_at(replicas, ckpt) else {
        unreachable!()
    };
    fill_lent(replica, lent);
}

/// The replica of a checkpoint takes over the snapshot that is lent, with this generation.
pub(crate) fn take_at(replicas: &mut [Replica], ckpt: CkptId, generation: u64, lent: &Lent)
    requires { IsSomeAnd (find_key replica_key ckpt replicas.old) (TakesLent lent.now) }
    ensures { replicas.new ≡ change_key replica_key ckpt (taken_lent generation lent.now.snap) replicas.old }
{
    let Some(i) = place_of(replicas, ckpt) else {
        unreachable!()
    };
    let replica = &mut replicas[i];
    take_lent(replica, generation, lent);
}

/// The replica of a checkpoint gets this generation.
pub(crate) fn lead_at(replicas: &mut [Replica], ckpt: CkptId, generation: u64)
    ensures { replicas.new ≡ change_key replica_key ckpt (λ x. record x { generation = generation }) replicas.old }
{
    let Some(i) = place_of(replicas, ckpt) else {
        return;
    };
    let replica = &mut replicas[i];
    replica.lead(generation);
}

/// The weak write that is under way on the replica of a checkpoint is cut short.
pub(crate) fn break_at(replicas: &mut [Replica], ckpt: CkptId)
    ensures { replicas.new ≡ change_key replica_key ckpt (λ x. abandoned x x.marks) replicas.old }
{
    let Some(i) = place_of(replicas, ckpt) else {
        return;
    };
    let replica = &mut replicas[i];
    replica.weak_abandon();
}
