//! The replicas of a node: which one is of a checkpoint, and what comes and goes.
ghost use Rattle.std.specs.Prelude.{◌≡◌, ◌<◌, [], ◌∷◌, ◌++◌, false, not, ◌==◌, None, Some, IfSome, IsSome, IsSomeAnd, MatchOption, OnOk, OnErr, filter, length};
ghost use Rattle.std.specs.List.{list_all};
ghost use Rattle.ckpt_types.specs.Attributes.{is_malformed};
ghost use Rattle.cluster_record.specs.Places.{find_key, place_key};
ghost use Rattle.cluster_record.specs.RecordState.{entry_of};
ghost use Rattle.replica.specs.Replicas.{opened_replica};
ghost use Rattle.node_core.specs.Nodes.{replica_key, is_there};
ghost use Rattle.node_core.specs.ReplicaLending.{IsPlaceOf};

use ckpt_types::CkptId;
use cluster_record::{Entry, Record};
use replica::Replica;
use std::alloc::{AllocError, Global};

/// Where the replica of a checkpoint stands.
pub(crate) fn place_of(replicas: &[Replica], ckpt: CkptId) -> Option<usize>
    ensures place { result ≡ place_key replica_key ckpt replicas.now }
    ensures within { IfSome result (λ i. i < length replicas.now) }
{
    for i in 0..replicas.len() {
        let replica = &replicas[i];
        if replica.ckpt() == ckpt {
            return Some(i);
        }
    }
    None
}

/// Where the replica of a checkpoint stands that is there.
#[inline(always)]
pub(crate) fn place_there(replicas: &[Replica], ckpt: CkptId) -> usize
    requires there { IsSome (find_key replica_key ckpt replicas.now) }
    ensures { IsPlaceOf ckpt replicas.now result }
{
    let Some(place) = place_of(replicas, ckpt) else {
        unreachable!()
    };
    place
}

/// The replica of a checkpoint.
pub(crate) fn find_at(replicas: &[Replica], ckpt: CkptId) -> Option<&Replica>
    ensures { MatchOption result (find_key replica_key ckpt replicas.now ≡ None) (λ replica. find_key replica_key ckpt replicas.now ≡ Some replica.now) }
{
    for replica in replicas {
        if replica.ckpt() == ckpt {
            return Some(replica);
        }
    }
    None
}

/// One replica more, as it is made for an entry, with this generation. Where memory is refused, all is as before.
pub(crate) fn push_opened(
    replicas: &mut Vec<Replica>,
    alloc: Global,
    ckpt: CkptId,
    entry: &Entry,
    generation: u64,
) -> Result<(), AllocError>
    requires { is_malformed entry.now.attributes ≡ false }
    ensures ok { OnOk result (replicas.new.items ≡ replicas.old.items ++ record (opened_replica ckpt entry.now.attributes entry.now.made) { generation = generation } ∷ []) }
    ensures err { OnErr result (replicas.new.items ≡ replicas.old.items) }
{
    replicas.reserve(1)?;
    let mut replica = Replica::reserve(alloc, ckpt, &entry.attributes, entry.made)?;
    replica.lead(generation);
    replicas.push_reserved(replica);
    Ok(())
}

/// The replicas go whose checkpoint has no entry in the record.
pub(crate) fn keep_there(replicas: &mut Vec<Replica>, seen: &Record)
    ensures { replicas.new.items ≡ filter (is_there seen.now.entries) replicas.old.items }
{
    if all_there(replicas.as_slice(), seen) {
        return;
    }
    replicas.retain(|replica| has_entry(replica, seen));
}

// Whether each replica's checkpoint has an entry in the record.
fn all_there(replicas: &[Replica], seen: &Record) -> bool
    ensures { result ≡ list_all (is_there seen.now.entries) replicas.now }
{
    replicas.iter().all(|replica| has_entry(replica, seen))
}

fn has_entry(replica: &Replica, seen: &Record) -> bool
    ensures { result ≡ is_there seen.now.entries replica.now }
{
    seen.entry(replica.ckpt()).is_some()
}

/// The replica of a checkpoint goes.
pub(crate) fn keep_others(replicas: &mut Vec<Replica>, ckpt: CkptId)
    ensures { replicas.new.items ≡ filter (λ x. not (x.ckpt == ckpt)) replicas.old.items }
{
    replicas.retain(|replica| is_other(replica, ckpt));
}

fn is_other(replica: &Replica, ckpt: CkptId) -> bool
    ensures { result ≡ not (replica.now.ckpt == ckpt) }
{
    replica.ckpt() != ckpt
}
