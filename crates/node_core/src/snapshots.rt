//! What a replica gives to a snapshot that is lent, and takes from one.
ghost use Rattle.std.specs.Prelude.{◌≡◌, Some, None, IsSomeAnd};
ghost use Rattle.ckpt_types.specs.Sections.{Fits};
ghost use Rattle.weak_marks.specs.Marks.{call_of};
ghost use Rattle.cluster_record.specs.RecordState.{entry_of};
ghost use Rattle.cluster_record.specs.StepDone.{generation_in};
ghost use Rattle.replica.specs.Replicas.{pull_result, pulled_from, pulled_unless};
ghost use Rattle.node_core.specs.Changing.{filled_by, taken_lent, LendsInto, TakesLent};
ghost use Rattle.node_core.specs.Serving.{pull_reply, install_reply, installed_of, older_reply};

use crate::lent::Lent;
use ckpt_types::{Answer, CkptId, Held};
use cluster_record::Record;
use node_msgs::Reply;
use replica::{Older, Replica};
use snap_copy::Snap;

/// The snapshot that is lent has what the replica has, and the reply tells its count; or the marks that stand hold the
/// pull off.
pub(crate) fn pull_lent(replica: &Replica, lent: &mut Lent) -> Reply
    requires { IsSomeAnd lent.old.snap (λ s. Fits s.attributes replica.now.sections) }
    ensures reply { result ≡ pull_reply (call_of replica.now.marks) replica.now.count }
    ensures lent { lent.new ≡ record lent.old { snap = lent.new.snap } }
    ensures snap { IsSomeAnd lent.old.snap (λ s. lent.new.snap ≡ Some (pulled_unless (call_of replica.now.marks) replica.now s)) }
{
    let Some(snap) = &mut lent.snap else {
        unreachable!()
    };
    pull(replica, snap)
}

fn pull(replica: &Replica, snap: &mut Snap) -> Reply
    requires { Fits snap.old.attributes replica.now.sections }
    ensures reply { result ≡ pull_reply (call_of replica.now.marks) replica.now.count }
    ensures snap { snap.new ≡ pulled_unless (call_of replica.now.marks) replica.now snap.old }
{
    match replica.pull(snap) {
        Ok(()) => Reply::Done(Answer::Pulled(replica.count())),
        Err(Held { by }) => Reply::Held(by),
    }
}

/// A snapshot with room for all that the replica declares has what that has; or the marks that stand hold the pull off.
pub fn pull_whole(replica: &Replica, snap: &mut Snap) -> Result<(), Held>
    requires { snap.old.attributes ≡ replica.now.attributes }
    ensures answer { result ≡ pull_result (call_of replica.now.marks) }
    ensures snap { snap.new ≡ pulled_unless (call_of replica.now.marks) replica.now snap.old }
{
    // The replica's sections keep to what it declares, and the snapshot has room for that.
    let declared = replica.store().attributes();
    prove!(declared == snap.attributes());
    replica.pull(snap)
}

/// The snapshot that is lent has what the replica has, on which no marks stand.
pub(crate) fn fill_lent(replica: &Replica, lent: &mut Lent)
    requires { LendsInto lent.old replica.now }
    ensures { lent.new ≡ record lent.old { snap = filled_by (Some replica.now) lent.old.snap } }
{
    let Some(snap) = &mut lent.snap else {
        unreachable!()
    };
    fill(replica, snap);
}

fn fill(replica: &Replica, snap: &mut Snap)
    requires unmarked { replica.now.marks ≡ None }
    requires fits { Fits snap.old.attributes replica.now.sections }
    ensures { snap.new ≡ pulled_from replica.now snap.old }
{
    // No marks hold it off.
    let _done = replica.pull(snap);
}

/// The replica takes over the snapshot that is lent, with this generation.
pub(crate) fn take_lent(replica: &mut Replica, generation: u64, lent: &Lent)
    requires { TakesLent lent.now replica.old }
    ensures { replica.new ≡ taken_lent generation lent.now.snap replica.old }
{
    let Some(snap) = &lent.snap else {
        unreachable!()
    };
    replica.complete_from(snap, generation);
}

/// The replica takes over the snapshot that is lent, where that is of the present generation and the replica older.
pub(crate) fn install_lent(replica: &mut Replica, ckpt: CkptId, seen: &Record, lent: &Lent) -> Reply
    requires free { replica.old.slot ≡ None }
    requires unmarked { replica.old.marks ≡ None }
    requires fits { IsSomeAnd lent.now.snap (λ s. Fits replica.old.attributes s.sections) }
    ensures reply { result ≡ install_reply (generation_in (entry_of ckpt seen.now.entries)) lent.now.snap replica.old }
    ensures new { replica.new ≡ installed_of (generation_in (entry_of ckpt seen.now.entries)) lent.now.snap replica.old }
{
    let Some(snap) = &lent.snap else {
        unreachable!()
    };
    let present = seen.generation_of(ckpt);
    if snap.generation() != present {
        return Reply::Stale(snap.generation(), present);
    }
    older_reply(replica.install(snap))
}

// It was done, or the replica is not older.
fn older_reply(told: Result<(), Older>) -> Reply
    ensures { result ≡ older_reply told }
{
    match told {
        Ok(()) => Reply::Done(Answer::Nothing),
        Err(older) => Reply::Older(older.generation, older.count),
    }
}
