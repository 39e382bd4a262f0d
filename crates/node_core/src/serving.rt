//! What the replica answers with which a node serves a checkpoint, and what becomes of it.
ghost use Rattle.std.specs.Prelude.{◌≡◌, ◌<◌, None, Some, IfSome, IsSomeAnd, length, if◌then◌else◌};
ghost use Rattle.cluster_record.specs.Places.{find_key, change_key, place_key};
ghost use Rattle.node_msgs.specs.Requests.{ckpt_of};
ghost use Rattle.stage_slot.specs.Slots.{owner_of};
ghost use Rattle.replica.specs.Replicas.{answer_unless, outcome_on, staged};
ghost use Rattle.node_core.specs.Behind.{remains_at, remains_of};
ghost use Rattle.node_core.specs.Details.{details_told};
ghost use Rattle.node_core.specs.Fitting.{CanServe, ReplicaFits, TakesUpdate};
ghost use Rattle.node_core.specs.Nodes.{replica_key, where_seen};
ghost use Rattle.node_core.specs.Payloads.{payload_of};
ghost use Rattle.node_core.specs.Seen.{record_seen, is_complete};
ghost use Rattle.node_core.specs.Serving.{reply_of, reply_at, replica_after, details_of, details_at, iteration_behind, snapshot_behind};

use crate::lent::Lent;
use crate::reads::{next_lent, read_lent, start_lent, status_lent};
use crate::replicas::place_of;
use crate::seen::is_complete;
use crate::snapshots::{install_lent, pull_lent};
use crate::updates::{apply_lent, claim, commit_lent, stage_lent, withdraw};
use crate::weak_writes::{element, mark_lent, unmark};
use ckpt_types::{CallId, CkptId, Moment, NodeId, SharedUpdate};
use cluster_record::Record;
use node_msgs::{Reply, Request};
use replica::{Replica, StageRefused};

// Where the replica stands with which the node serves a checkpoint.
#[inline(always)]
fn place_served(replicas: &[Replica], number: NodeId, seen: &Record, ckpt: CkptId) -> Option<usize>
    ensures place { result ≡ (if is_complete (record_seen seen.now ckpt number) then place_key replica_key ckpt replicas.now else None) }
    ensures within { IfSome result (λ i. i < length replicas.now) }
{
    if !is_complete(seen, ckpt, number) {
        return None;
    }
    place_of(replicas, ckpt)
}

/// The answer to any request but a reservation.
pub(crate) fn serve_in(
    replicas: &mut [Replica],
    number: NodeId,
    seen: &Record,
    request: &Request,
    lent: &mut Lent,
) -> Reply
    requires { ReplicaFits (is_complete (record_seen seen.now (ckpt_of request.now) number)) request.now lent.old (find_key replica_key (ckpt_of request.now) replicas.old) }
    ensures reply { result ≡ reply_at request.now (payload_of lent.old) (record_seen seen.now (ckpt_of request.now) number) (where_seen (is_complete (record_seen seen.now (ckpt_of request.now) number)) (find_key replica_key (ckpt_of request.now) replicas.old)) }
    ensures new { replicas.new ≡ (if is_complete (record_seen seen.now (ckpt_of request.now) number) then change_key replica_key (ckpt_of request.now) (replica_after request.now (payload_of lent.old) (record_seen seen.now (ckpt_of request.now) number)) replicas.old else replicas.old) }
    ensures details { details_told result lent.new ≡ details_at request.now (payload_of lent.old) (record_seen seen.now (ckpt_of request.now) number) (where_seen (is_complete (record_seen seen.now (ckpt_of request.now) number)) (find_key replica_key (ckpt_of request.now) replicas.old)) }
    ensures iteration { lent.new.iteration ≡ iteration_behind request.now (record_seen seen.now (ckpt_of request.now) number) (where_seen (is_complete (record_seen seen.now (ckpt_of request.now) number)) (find_key replica_key (ckpt_of request.now) replicas.old)) lent.old.iteration }
    ensures snapshot { lent.new.snap ≡ snapshot_behind request.now (where_seen (is_complete (record_seen seen.now (ckpt_of request.now) number)) (find_key replica_key (ckpt_of request.now) replicas.old)) lent.old.snap }
    ensures kept { lent.new ≡ remains_at request.now (where_seen (is_complete (record_seen seen.now (ckpt_of request.now) number)) (find_key replica_key (ckpt_of request.now) replicas.old)) result lent.new lent.old }
{
    let Some(i) = place_served(replicas, number, seen, request.ckpt()) else {
        return Reply::NoReplica;
    };
    let replica = &mut replicas[i];
    answer(replica, number, seen, request, lent)
}

/// The replica of a checkpoint stages an update of a call.
#[inline(always)]
pub(crate) fn stage_in(
    replicas: &mut [Replica],
    call: CallId,
    ckpt: CkptId,
    moment: Moment,
    update: SharedUpdate,
) -> Result<(), StageRefused>
    requires there { IsSomeAnd (find_key replica_key ckpt replicas.old) TakesUpdate }
    ensures answer { IfSome (find_key replica_key ckpt replicas.old) (λ x. result ≡ answer_unless (owner_of x.slot) (outcome_on x update moment)) }
    ensures new { replicas.new ≡ change_key replica_key ckpt (staged call update moment) replicas.old }
{
    let Some(i) = place_of(replicas, ckpt) else {
        unreachable!()
    };
    let replica = &mut replicas[i];
    replica.stage(call, update, moment)
}

// The answer of a replica for which its node is complete.
fn answer(
    replica: &mut Replica,
    number: NodeId,
    seen: &Record,
    request: &Request,
    lent: &mut Lent,
) -> Reply
    requires { CanServe request.now lent.old replica.old }
    ensures reply { result ≡ reply_of request.now (payload_of lent.old) (record_seen seen.now (ckpt_of request.now) number) replica.old }
    ensures new { replica.new ≡ replica_after request.now (payload_of lent.old) (record_seen seen.now (ckpt_of request.now) number) replica.old }
    ensures details { details_told result lent.new ≡ details_of request.now (payload_of lent.old) (record_seen seen.now (ckpt_of request.now) number) replica.old }
    ensures iteration { lent.new.iteration ≡ iteration_behind request.now (record_seen seen.now (ckpt_of request.now) number) (Some replica.old) lent.old.iteration }
    ensures snapshot { lent.new.snap ≡ snapshot_behind request.now (Some replica.old) lent.old.snap }
    ensures kept { lent.new ≡ remains_of request.now result lent.new lent.old }
{
    match request {
        Request::Stage(call, _, moment) => stage_lent(replica, *call, *moment, lent),
        Request::Claim(call, _, owner) => claim(replica, *call, *owner),
        Request::Commit(call, _) => commit_lent(replica, *call, lent),
        Request::Withdraw(call, _) => withdraw(replica, *call),
        Request::Apply(_, _) => apply_lent(replica, seen.now(), lent),
        Request::Mark(call, _) => mark_lent(replica, *call, seen.now(), lent),
        Request::Element(call, _) => element(replica, *call),
        Request::Unmark(call, _) => unmark(replica, *call),
        Request::Read(_) => read_lent(replica, seen, lent),
        Request::Status(ckpt) => status_lent(replica, *ckpt, seen, lent),
        Request::Iterate(_, _, choice) => start_lent(replica, *choice, seen, lent),
        Request::Next(_, _) => next_lent(replica, seen, lent),
        Request::Pull(_, _) => pull_lent(replica, lent),
        Request::Install(_, ckpt) => install_lent(replica, *ckpt, seen, lent),
        Request::Reserve(_) => Reply::NoReplica,
    }
}
