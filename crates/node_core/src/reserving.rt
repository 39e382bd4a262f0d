//! Replicas that a node makes: at a reservation, and where one is added.
ghost use Rattle.std.specs.Prelude.{◌≡◌, OnOk, OnErr, is_some};
ghost use Rattle.cluster_record.specs.Places.{find_key};
ghost use Rattle.node_core.specs.Changing.{added_for};
ghost use Rattle.node_core.specs.Fitting.{MayBeMade};
ghost use Rattle.node_core.specs.Nodes.{replica_key, replicas_reserved, MayReserve};
ghost use Rattle.node_core.specs.Seen.{record_seen};

use crate::replicas::{find_at, push_opened};
use ckpt_types::{Answer, CkptId, NodeId};
use cluster_record::Record;
use node_msgs::Reply;
use replica::Replica;
use std::alloc::{AllocError, Global};

/// A reservation: what is reserved already stays.
pub(crate) fn reserve_in(
    replicas: &mut Vec<Replica>,
    number: NodeId,
    alloc: Global,
    seen: &Record,
    ckpt: CkptId,
) -> Reply
    requires { MayBeMade (record_seen seen.now ckpt number).entry }
    ensures reply { MayReserve (is_some (find_key replica_key ckpt replicas.old.items)) result }
    ensures new { replicas.new.items ≡ replicas_reserved (record_seen seen.now ckpt number) ckpt result replicas.old.items }
{
    let Some(entry) = seen.entry(ckpt) else {
        unreachable!()
    };
    if is_reserved(replicas.as_slice(), ckpt) {
        return Reply::Done(Answer::Nothing);
    }
    match push_opened(replicas, alloc, ckpt, entry, 1) {
        Ok(()) => Reply::Done(Answer::Nothing),
        Err(_) => Reply::NoMemory,
    }
}

// Whether there is a replica of a checkpoint.
fn is_reserved(replicas: &[Replica], ckpt: CkptId) -> bool
    ensures { result ≡ is_some (find_key replica_key ckpt replicas.now) }
{
    find_at(replicas, ckpt).is_some()
}

/// One replica more, of a checkpoint that has an entry, with this generation.
pub(crate) fn add_in(
    replicas: &mut Vec<Replica>,
    number: NodeId,
    alloc: Global,
    seen: &Record,
    ckpt: CkptId,
    generation: u64,
) -> Result<(), AllocError>
    requires { MayBeMade (record_seen seen.now ckpt number).entry }
    ensures ok { OnOk result (replicas.new.items ≡ added_for (record_seen seen.now ckpt number).entry ckpt generation replicas.old.items) }
    ensures err { OnErr result (replicas.new.items ≡ replicas.old.items) }
{
    let Some(entry) = seen.entry(ckpt) else {
        unreachable!()
    };
    push_opened(replicas, alloc, ckpt, entry, generation)
}
