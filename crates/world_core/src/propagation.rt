//! The events by which what the active of a checkpoint has is brought to its other replicas.
ghost use Rattle.std.specs.Prelude.{◌≡◌, ◌≤◌, ◌<◌, None, Some, IfSome, MatchOption, length};
ghost use Rattle.ckpt_types.specs.Limits.{nodes_max};
ghost use Rattle.cluster_record.specs.Kept.{IsComplete};
ghost use Rattle.cluster_record.specs.RecordState.{complete_of, entry_of};
ghost use Rattle.ckpt_machine.specs.Propagation.{source_of};
ghost use Rattle.world_core.specs.Backgrounds.{background_in, pulled_in};
ghost use Rattle.world_core.specs.Happenings.{Adds, Propagates};
ghost use Rattle.ckpt_machine.specs.Nodes.{replica_in};
ghost use Rattle.world_core.specs.Propagating.{CanPull, snapshots_pulled};
ghost use Rattle.ckpt_machine.specs.Propagating.{CanPut, nodes_put, pull_told, put_told, source_in, takes_puts};
ghost use Rattle.world_core.specs.Runs.{IsPulledOf, IsPutOf};
ghost use Rattle.world_core.specs.Shows.{IsShown};

use crate::snapshots::Snapshots;
use crate::world::World;
use ckpt_types::{CkptId, NodeId};
use client_calls::is_all;
use cluster_nodes::Nodes;
use cluster_record::{Entry, Record, is_active};
use replica::Replica;
use run_labels::{Label, PullReply, PutReply, RunLog};

impl World {
    /// The background snapshot of a checkpoint is taken of its active replica. It takes no memory.
    pub(crate) fn pull(&mut self, ckpt: CkptId, log: &mut RunLog)
        requires shown { IsShown self.old }
        requires spare { 1 ≤ log.old.spare }
        ensures { Adds log.old log.new (Propagates (IsPulledOf ckpt) self.old self.new) }
    {
        let reply = take_snapshot(&self.cluster, &self.nodes, &mut self.snapshots, ckpt);
        log.push(Label::Pulled(ckpt, reply));
    }

    /// The background snapshot of a checkpoint is put onto the replica of a node. It takes no memory.
    pub(crate) fn put(&mut self, ckpt: CkptId, r: NodeId, log: &mut RunLog)
        requires node { r < nodes_max }
        requires shown { IsShown self.old }
        requires spare { 1 ≤ log.old.spare }
        ensures { Adds log.old log.new (Propagates (IsPutOf ckpt r) self.old self.new) }
    {
        let reply = put_snapshot(&self.cluster, &mut self.nodes, &self.snapshots, ckpt, r);
        log.push(Label::Put(ckpt, r, reply));
    }
}

fn take_snapshot(
    cluster: &Record,
    nodes: &Nodes,
    snapshots: &mut Snapshots,
    ckpt: CkptId,
) -> PullReply
    requires { CanPull (source_in cluster.now nodes.now ckpt) (background_in snapshots.old ckpt) }
    ensures reply { result ≡ pull_told (source_in cluster.now nodes.now ckpt) }
    ensures new { snapshots.new ≡ snapshots_pulled (source_in cluster.now nodes.now ckpt) ckpt snapshots.old }
{
    let Some(replica) = source(cluster, nodes, ckpt) else {
        return PullReply::Nothing;
    };
    match snapshots.pull(ckpt, replica) {
        Ok(()) => PullReply::Ok(replica.count()),
        Err(held) => PullReply::Held(held.by),
    }
}

// The replica that a pull takes a snapshot of, if there is one: the active, of a checkpoint that is made and whose updates
// go to the active alone.
fn source<'a>(cluster: &Record, nodes: &'a Nodes, ckpt: CkptId) -> Option<&'a Replica>
    ensures { MatchOption result (source_in cluster.now nodes.now ckpt ≡ None) (λ replica. source_in cluster.now nodes.now ckpt ≡ Some replica.now) }
{
    let entry = cluster.entry(ckpt)?;
    if entry.making.is_some() || is_all(&entry.attributes) {
        return None;
    }
    nodes.find(entry.active?, ckpt)
}

fn put_snapshot(
    cluster: &Record,
    nodes: &mut Nodes,
    snapshots: &Snapshots,
    ckpt: CkptId,
    r: NodeId,
) -> PutReply
    requires node { r < nodes_max }
    requires can { CanPut (entry_of ckpt cluster.now.entries) r (pulled_in snapshots.now ckpt) (replica_in nodes.old ckpt r) }
    ensures reply { result ≡ put_told (entry_of ckpt cluster.now.entries) r (pulled_in snapshots.now ckpt) (replica_in nodes.old ckpt r) }
    ensures new { nodes.new ≡ nodes_put ckpt r (entry_of ckpt cluster.now.entries) (pulled_in snapshots.now ckpt) nodes.old }
{
    let Some(entry) = cluster.entry(ckpt) else {
        return PutReply::Nothing;
    };
    if !takes_puts(entry, r) {
        return PutReply::Nothing;
    }
    let Some(snap) = snapshots.pulled(ckpt) else {
        return PutReply::Nothing;
    };
    if snap.generation() != entry.generation {
        return PutReply::Stale(snap.generation(), entry.generation);
    }
    match nodes.at(r, ckpt).install(snap) {
        Ok(()) => PutReply::Ok(snap.count()),
        Err(older) => PutReply::Old(older.generation, older.count),
    }
}

// Whether a put may be at the node: it is complete, and not the active's, and updates go to the active alone.
fn takes_puts(entry: &Entry, r: NodeId) -> bool
    requires node { r < nodes_max }
    requires nodes { length entry.now.complete ≡ nodes_max }
    ensures { result ≡ takes_puts entry.now r }
{
    entry.complete[r as usize] != 0 && !is_all(&entry.attributes) && !is_active(entry.active, r)
}
