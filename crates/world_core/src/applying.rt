//! What a step of a call does to the record, and to the nodes by it.
ghost use Rattle.std.specs.Prelude.{◌≡◌, ◌+◌, IfSome, OnOk, OnErr, IsTrue};
ghost use Rattle.ckpt_types.specs.Attributes.{IsWellFormed};
ghost use Rattle.cluster_record.specs.LookUps.{at_ckpt, identity_in};
ghost use Rattle.cluster_record.specs.Opening.{open_answer, after_open};
ghost use Rattle.cluster_record.specs.RecordState.{entry_of, named, home_of, opened};
ghost use Rattle.client_calls.specs.CallStates.{step_in};
ghost use Rattle.ckpt_machine.specs.Nodes.{with_opened};
ghost use Rattle.ckpt_machine.specs.RecordAfter.{once_change, event_change, event_after, nodes_behind};
ghost use Rattle.world_core.specs.Backgrounds.{snapshots_behind, with_room_asked};
ghost use Rattle.ckpt_machine.specs.RecordReady.{CanAsk, CanAdd, HasFound, HasNoneOf, IsGranted, IsOnceReady, IsOpenedAs, IsOpenReady, IsPlain, IsRecordReady};
ghost use Rattle.ckpt_machine.specs.Driving.{takes_memory};
ghost use Rattle.ckpt_machine.specs.Drivers.{Open};

use crate::snapshots::Snapshots;
use ckpt_types::{CallId, CkptId, CreationAttributes, OpenAsk};
use client_calls::{Driver, DriverKind, OneStep};
use cluster_nodes::Nodes;
use cluster_record::{OpenAnswer, Record, number_of};
use drive_open::{OpenCall, SharedAsk};
use node_msgs::RecordStep;
use std::alloc::{AllocError, Global};

/// A step of a call that drives so, and the sweep behind it. A creation takes the room for the snapshot of its
/// checkpoint, and an open may add a replica on its client's node.
pub fn apply(
    alloc: Global,
    cluster: &mut Record,
    nodes: &mut Nodes,
    snapshots: &mut Snapshots,
    call: CallId,
    driver: &Driver,
    step: RecordStep,
    ckpt: Option<CkptId>,
) -> Result<(), AllocError>
    requires plain { IsPlain step }
    requires ready { IsRecordReady call cluster.old driver.now step }
    requires free { CanAdd driver.now step cluster.old nodes.old }
    requires found { HasFound cluster.old driver.now step ckpt }
    ensures ok { OnOk result (cluster.new ≡ event_after call driver.now step cluster.old) }
    ensures nodes { OnOk result (nodes.new ≡ nodes_behind driver.now step cluster.old nodes.old) }
    ensures snapshots { OnOk result (snapshots.new ≡ snapshots_behind driver.now step cluster.old snapshots.old) }
    ensures err { OnErr result ((cluster.new ≡ cluster.old) × (nodes.new ≡ nodes.old) × (snapshots.new ≡ snapshots.old)) }
    ensures memory { OnErr result (IsTrue (takes_memory step)) }
{
    change(alloc, cluster, nodes, snapshots, call, driver, step, ckpt)?;
    cluster.sweep();
    Ok(())
}

fn change(
    alloc: Global,
    cluster: &mut Record,
    nodes: &mut Nodes,
    snapshots: &mut Snapshots,
    call: CallId,
    driver: &Driver,
    step: RecordStep,
    ckpt: Option<CkptId>,
) -> Result<(), AllocError>
    requires plain { IsPlain step }
    requires ready { IsRecordReady call cluster.old driver.now step }
    requires free { CanAdd driver.now step cluster.old nodes.old }
    requires found { HasFound cluster.old driver.now step ckpt }
    ensures ok { OnOk result (cluster.new ≡ event_change call driver.now step cluster.old) }
    ensures nodes { OnOk result (nodes.new ≡ nodes_behind driver.now step cluster.old nodes.old) }
    ensures snapshots { OnOk result (snapshots.new ≡ snapshots_behind driver.now step cluster.old snapshots.old) }
    ensures err { OnErr result ((cluster.new ≡ cluster.old) × (nodes.new ≡ nodes.old) × (snapshots.new ≡ snapshots.old)) }
    ensures memory { OnErr result (IsTrue (takes_memory step)) }
{
    match &driver.kind {
        DriverKind::Once(one_step) => {
            change_once(cluster, call, one_step);
            Ok(())
        }
        DriverKind::Open(open_call) => {
            change_by_open(
                alloc, cluster, nodes, snapshots, call, open_call, step, ckpt,
            )
        }
        DriverKind::Update(_) | DriverKind::Active(_) | DriverKind::Sync(_) => Ok(()),
    }
}

fn change_once(cluster: &mut Record, call: CallId, step: &OneStep)
    requires { IsOnceReady call cluster.old (step_in step.now) }
    ensures { cluster.new ≡ once_change call (step_in step.now) cluster.old }
{
    match step {
        OneStep::Enter(node) => {
            let Ok(()) = cluster.enter(call, *node) else {
                unreachable!()
            };
        }
        OneStep::Leave => cluster.leave(number_of(&call.actor)),
        OneStep::Close(ckpt) => cluster.close(number_of(&call.actor), *ckpt),
        OneStep::Unlink(name) => {
            let Ok(()) = cluster.unlink(name.value()) else {
                unreachable!()
            };
        }
        OneStep::Retain(ckpt, duration) => {
            let Ok(()) = cluster.retain(*ckpt, *duration) else {
                unreachable!()
            };
        }
    }
}

fn change_by_open(
    alloc: Global,
    cluster: &mut Record,
    nodes: &mut Nodes,
    snapshots: &mut Snapshots,
    call: CallId,
    open_call: &OpenCall,
    step: RecordStep,
    ckpt: Option<CkptId>,
) -> Result<(), AllocError>
    requires ready { IsOpenReady call cluster.old open_call.now step }
    requires free { CanAdd (Open open_call.now) step cluster.old nodes.old }
    requires found { HasFound cluster.old (Open open_call.now) step ckpt }
    ensures ok { OnOk result (cluster.new ≡ event_change call (Open open_call.now) step cluster.old) }
    ensures nodes { OnOk result (nodes.new ≡ nodes_behind (Open open_call.now) step cluster.old nodes.old) }
    ensures snapshots { OnOk result (snapshots.new ≡ snapshots_behind (Open open_call.now) step cluster.old snapshots.old) }
    ensures err { OnErr result ((cluster.new ≡ cluster.old) × (nodes.new ≡ nodes.old) × (snapshots.new ≡ snapshots.old)) }
    ensures memory { OnErr result (IsTrue (takes_memory step)) }
{
    match step {
        RecordStep::Create => create(alloc, cluster, snapshots, call, open_call.ask()),
        RecordStep::Open => open(alloc, cluster, nodes, ckpt, open_call.ask()),
        RecordStep::Finish => {
            if let Some(ckpt) = open_call.making() {
                cluster.finish_create(ckpt);
            }
            Ok(())
        }
        RecordStep::Undo => {
            if let Some(ckpt) = open_call.making() {
                cluster.undo_create(ckpt);
            }
            Ok(())
        }
        _ => Ok(()),
    }
}

// The record puts the checkpoint of the ask into the making, and there is room for its snapshot.
fn create(
    alloc: Global,
    cluster: &mut Record,
    snapshots: &mut Snapshots,
    call: CallId,
    ask: &SharedAsk,
) -> Result<(), AllocError>
    requires can { CanAsk call cluster.old ask.now }
    requires granted { IsGranted (open_answer cluster.old ask.now) }
    ensures ok { OnOk result (cluster.new ≡ after_open call ask.now cluster.old) }
    ensures snapshots { OnOk result (snapshots.new ≡ with_room_asked (cluster.old.last_identity + 1) ask.now.attrs snapshots.old) }
    ensures err { OnErr result ((cluster.new ≡ cluster.old) × (snapshots.new ≡ snapshots.old)) }
{
    let ask = ask.to_ask()?;
    make_room(alloc, snapshots, cluster.last_identity() + 1, &ask.attrs)?;
    put(cluster, call, ask);
    Ok(())
}

// Room for the snapshot of a checkpoint that is to be made with these attributes.
fn make_room(
    alloc: Global,
    snapshots: &mut Snapshots,
    ckpt: CkptId,
    attributes: &Option<CreationAttributes>,
) -> Result<(), AllocError>
    requires { IfSome attributes.now IsWellFormed }
    ensures ok { OnOk result (snapshots.new ≡ with_room_asked ckpt attributes.now snapshots.old) }
    ensures err { OnErr result (snapshots.new ≡ snapshots.old) }
{
    match attributes {
        None => Ok(()),
        Some(attributes) => snapshots.make_room(alloc, ckpt, attributes),
    }
}

// The client of the ask opens the checkpoint that was found, and where that adds a replica, its node has it.
fn open(
    alloc: Global,
    cluster: &mut Record,
    nodes: &mut Nodes,
    ckpt: Option<CkptId>,
    ask: &SharedAsk,
) -> Result<(), AllocError>
    requires found { IsOpenedAs cluster.old ask.now ckpt }
    requires free { HasNoneOf (named ask.now.name cluster.old.entries) (home_of ask.now.client cluster.old) nodes.old }
    ensures ok { OnOk result (cluster.new ≡ at_ckpt (identity_in (named ask.now.name cluster.old.entries)) cluster.old (λ k. opened k ask.now.client cluster.old)) }
    ensures nodes { OnOk result (nodes.new ≡ with_opened (named ask.now.name cluster.old.entries) (home_of ask.now.client cluster.old) nodes.old) }
    ensures err { OnErr result ((cluster.new ≡ cluster.old) × (nodes.new ≡ nodes.old)) }
{
    let Some(ckpt) = ckpt else { unreachable!() };
    add_replica(alloc, cluster, nodes, ckpt, ask.client)?;
    cluster.refer(ckpt, ask.client);
    Ok(())
}

// The client's node gets the replica that an open of the checkpoint adds, if it adds one.
fn add_replica(
    alloc: Global,
    cluster: &Record,
    nodes: &mut Nodes,
    ckpt: CkptId,
    client: u8,
) -> Result<(), AllocError>
    requires { HasNoneOf (entry_of ckpt cluster.now.entries) (home_of client cluster.now) nodes.old }
    ensures ok { OnOk result (nodes.new ≡ with_opened (entry_of ckpt cluster.now.entries) (home_of client cluster.now) nodes.old) }
    ensures err { OnErr result (nodes.new ≡ nodes.old) }
{
    let Some(entry) = cluster.entry(ckpt) else {
        return Ok(());
    };
    if !cluster.adds_replica(ckpt, client) {
        return Ok(());
    }
    nodes.add(alloc, cluster.home_of(client), cluster, entry)
}

// The record puts the checkpoint of the ask into the making: that it is not refused was decided before.
fn put(cluster: &mut Record, call: CallId, ask: OpenAsk)
    requires can { CanAsk call cluster.old ask }
    requires granted { IsGranted (open_answer cluster.old ask) }
    ensures { cluster.new ≡ after_open call ask cluster.old }
{
    if let OpenAnswer::Refused(_) = cluster.open(call, ask) {
        unreachable!()
    }
}
