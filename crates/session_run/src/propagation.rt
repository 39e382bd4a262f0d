//! The lines `pull`, `put` and `propagate`: what the active has is brought to the other replicas.
ghost use Rattle.std.specs.Prelude.{◌≡◌, ℕ, ◌+◌, ◌-◌, ◌<◌, ◌≤◌, ◌^◌, List, ◌∷◌, length, OnOk, OnErr, if◌then◌else◌};
ghost use Rattle.std.specs.List.{filter};
ghost use Rattle.ckpt_types.specs.Limits.{built_line_labels, nodes_max};
ghost use Rattle.cluster_record.specs.RecordState.{all_nodes, complete_of, entry_of};
ghost use Rattle.ckpt_machine.specs.Runs.{last};
ghost use Rattle.world_core.specs.declared.world.Event.TheVariants as happenings;
ghost use Rattle.world_core.specs.Runs.{Happens, IsRunTo};
ghost use Rattle.session_run.specs.Growing.{GrowsBy, GrowsTowards, GrowsToPuts};
ghost use Rattle.session_run.specs.Puts.{active_in, ArePuts, is_pulled, IsPropagation, other_nodes, takes_put, tells_pulled};

use ckpt_types::{CkptId, Incarnation, NODES_MAX, NodeId};
use cluster_record::is_active;
use run_labels::{Label, PullReply, RunLog};
use std::alloc::{AllocError, Global};
use world_core::{Cluster, Event};

/// A pull, and where a snapshot was pulled, a put at each complete node but the active's, from the lowest up.
pub(crate) fn propagate<W: Cluster>(
    alloc: Global,
    ckpt: CkptId,
    log: &mut RunLog,
    world: &mut W,
) -> Result<(), AllocError>
    requires run { IsRunTo (W.shown world.old) log.old.labels }
    requires room { length log.old.labels + built_line_labels < 2 ^ 32 - 2 }
    ensures run { IsRunTo (W.shown world.new) log.new.labels }
    ensures few { length log.new.labels ≤ length log.old.labels + built_line_labels }
    ensures moment { OnOk result ((W.shown world.new).cluster.moment ≡ (W.shown world.old).cluster.moment) }
    ensures answers { OnOk result (GrowsBy log.old.labels log.new.labels (IsPropagation ckpt (other_nodes (entry_of ckpt (last log.old.labels).cluster.entries)))) }
    ensures front { GrowsTowards log.old.labels log.new.labels (IsPropagation ckpt (other_nodes (entry_of ckpt (last log.old.labels).cluster.entries))) }
{
    let complete = complete_nodes(ckpt, world);
    let active = active_node(ckpt, world);
    let place = log.len();
    pull(alloc, ckpt, log, world)?;
    if !tells_pulled(log.at(place)) {
        return Ok(());
    }
    put_all(alloc, ckpt, &complete, active, log, world)
}

// By node, the incarnation with which it is complete.
fn complete_nodes<W: Cluster>(ckpt: CkptId, world: &W) -> [Incarnation; NODES_MAX]
    ensures { result ≡ complete_of (entry_of ckpt (W.shown world.now).cluster.entries) }
{
    match world.record().entry(ckpt) {
        None => [0; NODES_MAX],
        Some(entry) => entry.complete,
    }
}

// The node of the active, if there is one.
fn active_node<W: Cluster>(ckpt: CkptId, world: &W) -> Option<NodeId>
    ensures { result ≡ active_in (entry_of ckpt (W.shown world.now).cluster.entries) }
{
    match world.record().entry(ckpt) {
        None => None,
        Some(entry) => entry.active,
    }
}

// A pull.
fn pull<W: Cluster>(
    alloc: Global,
    ckpt: CkptId,
    log: &mut RunLog,
    world: &mut W,
) -> Result<(), AllocError>
    requires run { IsRunTo (W.shown world.old) log.old.labels }
    requires room { length log.old.labels < 2 ^ 32 - 2 }
    ensures run { IsRunTo (W.shown world.new) log.new.labels }
    ensures happens { OnOk result (Happens (happenings.Pull ckpt) (W.shown world.old) (W.shown world.new) log.old.labels log.new.labels) }
    ensures err { OnErr result (log.new.labels ≡ log.old.labels) }
{
    world.event(alloc, Event::Pull(ckpt), log)
}

// Whether a label tells that a snapshot was pulled.
fn tells_pulled(label: &Label) -> bool
    ensures { result ≡ tells_pulled label.now }
{
    match label {
        Label::Pulled(_, reply) => is_pulled(*reply),
        _ => false,
    }
}

fn is_pulled(reply: PullReply) -> bool
    ensures { result ≡ is_pulled reply }
{
    matches!(reply, PullReply::Ok(_))
}

// A put at each of the nodes that take one, from the lowest up.
fn put_all<W: Cluster>(
    alloc: Global,
    ckpt: CkptId,
    complete: &[Incarnation; NODES_MAX],
    active: Option<NodeId>,
    log: &mut RunLog,
    world: &mut W,
) -> Result<(), AllocError>
    requires run { IsRunTo (W.shown world.old) log.old.labels }
    requires room { length log.old.labels + nodes_max < 2 ^ 32 - 2 }
    ensures run { IsRunTo (W.shown world.new) log.new.labels }
    ensures few { length log.new.labels ≤ length log.old.labels + nodes_max }
    ensures moment { OnOk result ((W.shown world.new).cluster.moment ≡ (W.shown world.old).cluster.moment) }
    ensures puts { OnOk result (GrowsBy log.old.labels log.new.labels (ArePuts ckpt (filter (takes_put complete.now active) all_nodes))) }
    ensures front { GrowsTowards log.old.labels log.new.labels (ArePuts ckpt (filter (takes_put complete.now active) all_nodes)) }
{
    for r in 0..NODES_MAX as u8 {
        let takes = takes_put(complete, active, r);
        put_where(alloc, ckpt, r, takes, log, world)?;
    }
    Ok(())
}

// Whether the node is complete, and has not the active.
fn takes_put(complete: &[Incarnation; NODES_MAX], active: Option<NodeId>, r: NodeId) -> bool
    requires { r < nodes_max }
    ensures { result ≡ takes_put complete.now active r }
{
    complete[r as usize] != 0 && !is_active(active, r)
}

// A put at the node, where it takes one.
fn put_where<W: Cluster>(
    alloc: Global,
    ckpt: CkptId,
    r: NodeId,
    takes: bool,
    log: &mut RunLog,
    world: &mut W,
) -> Result<(), AllocError>
    requires run { IsRunTo (W.shown world.old) log.old.labels }
    requires node { r < nodes_max }
    requires room { length log.old.labels < 2 ^ 32 - 2 }
    ensures run { IsRunTo (W.shown world.new) log.new.labels }
    ensures few { length log.new.labels ≤ length log.old.labels + 1 }
    ensures moment { OnOk result ((W.shown world.new).cluster.moment ≡ (W.shown world.old).cluster.moment) }
    ensures puts { OnOk result ((rest : List ℕ) → GrowsToPuts ckpt rest (if takes then r ∷ rest else rest) log.old.labels log.new.labels) }
    ensures err { OnErr result (log.new.labels ≡ log.old.labels) }
{
    if !takes {
        return Ok(());
    }
    put(alloc, ckpt, r, log, world)
}

// A put.
fn put<W: Cluster>(
    alloc: Global,
    ckpt: CkptId,
    r: NodeId,
    log: &mut RunLog,
    world: &mut W,
) -> Result<(), AllocError>
    requires run { IsRunTo (W.shown world.old) log.old.labels }
    requires node { r < nodes_max }
    requires room { length log.old.labels < 2 ^ 32 - 2 }
    ensures run { IsRunTo (W.shown world.new) log.new.labels }
    ensures happens { OnOk result (Happens (happenings.Put ckpt r) (W.shown world.old) (W.shown world.new) log.old.labels log.new.labels) }
    ensures err { OnErr result (log.new.labels ≡ log.old.labels) }
{
    world.event(alloc, Event::Put(ckpt, r), log)
}
