//! What drives a call: with what it begins, and what it does next.
ghost use Rattle.cluster_record.specs.Makings.{makings_of};
ghost use Rattle.std.specs.Prelude.{◌≡◌, ◌-◌, ◌^◌, ◌<◌, Some, IfOk, IsSome};
ghost use Rattle.ckpt_types.specs.Limits.{client_numbers};
ghost use Rattle.ckpt_machine.specs.Driving.{driver_next, driver_start, kind_of_change, change_start, active_start, sync_start, event_ckpt, event_node, making_in};
ghost use Rattle.client_calls.specs.CallStates.{step_in};
ghost use Rattle.cluster_record.specs.Calls.{client_of};
ghost use Rattle.cluster_record.specs.RecordState.{home_of};
ghost use Rattle.ckpt_types.specs.Asks.{asked};
ghost use Rattle.client_calls.specs.Names.{IsClientOf};
ghost use Rattle.ckpt_machine.specs.Options.{is_weak};
ghost use Rattle.cluster_record.specs.Placement.{is_all};
ghost use Rattle.ckpt_machine.specs.Due.{declares_at, kept_at_beginning};
ghost use Rattle.ckpt_machine.specs.Tables.{rooms_in};
ghost use Rattle.ckpt_machine.specs.Granting.{event_granted};
ghost use Rattle.ckpt_machine.specs.Drivers.{Once, Open};
ghost use Rattle.ckpt_machine.specs.Drivers as kinds;
ghost use Rattle.cluster_record.specs.DueOpen.{open_begun};

use crate::beginning::{choice_of, ckpt_of_handle};
use crate::one_step::OneStep;
use crate::options::{is_all, is_weak};
use crate::table::Table;
use ckpt_types::{CallId, CkptId, Moment, NodeId, Op, SharedAttributes, SharedName, Update};
use client_handles::HandleView;
use cluster_record::{ActiveKind, Record, SyncKind, number_of};
use drive_active::ActiveCall;
use drive_open::{OpenCall, SharedAsk};
use drive_sync::SyncCall;
use drive_update::UpdateCall;
use node_msgs::{Next, RecordStep};
use std::alloc::{AllocError, Global};
use std::marker::Model;

/// What drives a call that is in hand.
#[derive(Drop)]
pub struct Driver {
    /// By the kind of its operation.
    pub kind: DriverKind,
}

impl Model for Driver {
    ghost use Rattle.ckpt_machine.specs.Drivers.{Driver};

    ghost Value = { Driver };

    ghost use Rattle.client_calls.specs.CallStates.{driver_in};

    ghost view = { λ driver. driver_in driver.kind };
}

/// What drives the calls of each kind of operation.
#[derive(Drop)]
pub enum DriverKind {
    /// A call of one step of the record.
    Once(OneStep),
    /// An open.
    Open(OpenCall),
    /// An all-replicas update.
    Update(UpdateCall),
    /// A call to the active replica.
    Active(ActiveCall),
    /// A call that brings what the active has to other replicas.
    Sync(SyncCall),
}

impl Driver {
    fn once(step: OneStep) -> Driver
        ensures { result ≡ Once (step_in step) }
    {
        Driver {
            kind: DriverKind::Once(step),
        }
    }

    /// The driver of a call that begins now and goes on, on this handle if it names one that is there. The two share
    /// the operation's name, if it has one.
    #[inline(always)]
    pub fn start(
        call: CallId,
        op: &Op,
        handle: &Option<HandleView>,
        cluster: &Record,
    ) -> Result<Driver, AllocError>
        requires asker { IsClientOf call.actor (asked op.now) }
        requires goes_on { IsSome (driver_start call (asked op.now) (kept_at_beginning cluster.now call.actor handle.now)) }
        ensures { IfOk result (λ driver. driver_start call (asked op.now) (kept_at_beginning cluster.now call.actor handle.now) ≡ Some driver) }
    {
        match op {
            Op::Client(r, _, _) => Ok(Driver::once(OneStep::Enter(*r))),
            Op::Open(_, name, _, timeout, attributes) => {
                let deadline = Some(cluster.moment_after(*timeout));
                open_start(call, name, attributes, cluster, deadline)
            }
            Op::OpenAsync(_, _, name, _, attributes) => {
                open_start(call, name, attributes, cluster, None)
            }
            Op::Create(_, update)
            | Op::Delete(_, update)
            | Op::Expire(_, update)
            | Op::Write(_, update)
            | Op::Over(_, update) => {
                Ok(change_start(call, update.value(), cluster, ckpt_of_handle(handle)))
            }
            Op::Read(_, _) => Ok(active_start(call, ActiveKind::Read, ckpt_of_handle(handle))),
            Op::Status(_) => Ok(active_start(call, ActiveKind::Status, ckpt_of_handle(handle))),
            Op::Iter(_, _, chosen, time) => Ok(active_start(
                call,
                ActiveKind::Iterate(choice_of(*chosen, *time)),
                ckpt_of_handle(handle),
            )),
            Op::Next(_) => Ok(active_start(call, ActiveKind::Next, ckpt_of_handle(handle))),
            Op::Close(_) => Ok(Driver::once(OneStep::Close(there(ckpt_of_handle(handle))))),
            Op::Retain(_, duration) => {
                let ckpt = there(ckpt_of_handle(handle));
                Ok(Driver::once(OneStep::Retain(ckpt, *duration)))
            }
            Op::Unlink(name) => Ok(Driver::once(OneStep::Unlink(name.share()?))),
            Op::Finalize => Ok(Driver::once(OneStep::Leave)),
            Op::Sync(_, timeout) => {
                let deadline = cluster.moment_after(*timeout);
                let kind = SyncKind::Synchronize(Some(deadline));
                Ok(sync_start(call, kind, ckpt_of_handle(handle)))
            }
            Op::SyncAsync(_, _) => {
                Ok(sync_start(call, SyncKind::Synchronize(None), ckpt_of_handle(handle)))
            }
            Op::Active(_) => {
                let node = cluster.home_of(number_of(&call.actor));
                Ok(sync_start(call, SyncKind::ActiveSet(node), ckpt_of_handle(handle)))
            }
            _ => unreachable!(),
        }
    }

    /// An equal one, with shares of the name and the attributes, if it keeps them.
    pub fn copy(&self, alloc: Global) -> Result<Driver, AllocError>
        ensures { IfOk result (λ copy. copy ≡ self.now) }
    {
        match &self.kind {
            DriverKind::Once(step) => copy_of_once(step),
            DriverKind::Open(open_call) => copy_of_open(alloc, open_call),
            DriverKind::Update(update) => copy_of_update(alloc, update),
            DriverKind::Active(active) => copy_of_active(alloc, active),
            DriverKind::Sync(sync) => copy_of_sync(alloc, sync),
        }
    }

    /// The checkpoint that the call is making, if it is.
    pub fn making(&self) -> Option<CkptId>
        ensures { result ≡ making_in self.now }
    {
        match &self.kind {
            DriverKind::Open(open_call) => open_call.making(),
            _ => None,
        }
    }

    /// What the call does next, by the record and by what its client's tables have a free place for.
    #[inline(always)]
    pub fn next(&self, cluster: &Record, table: &Table, c: u8) -> Next
        requires { c < client_numbers }
        ensures { result ≡ driver_next cluster.now (rooms_in (makings_of c cluster.now.entries) table.now.client) self.now }
    {
        match &self.kind {
            DriverKind::Once(step) => step.next(cluster),
            DriverKind::Open(open_call) => {
                open_call.next(cluster, table.has_place(cluster.makings(c)))
            }
            DriverKind::Update(update) => update.next(cluster),
            DriverKind::Active(active) => active.next(cluster, table.has_iteration_room()),
            DriverKind::Sync(sync) => sync.next(cluster),
        }
    }
}

// What drives a call that is an equal one of each kind.

fn copy_of_once(step: &OneStep) -> Result<Driver, AllocError>
    ensures { IfOk result (λ copy. copy ≡ Once (step_in step.now)) }
{
    Ok(Driver::once(step.copy()?))
}

fn copy_of_open(alloc: Global, open_call: &OpenCall) -> Result<Driver, AllocError>
    ensures { IfOk result (λ copy. copy ≡ Open open_call.now) }
{
    Ok(Driver {
        kind: DriverKind::Open(open_call.copy(alloc)?),
    })
}

fn copy_of_update(alloc: Global, update: &UpdateCall) -> Result<Driver, AllocError>
    ensures { IfOk result (λ copy. copy ≡ kinds.Update update.now) }
{
    Ok(Driver {
        kind: DriverKind::Update(update.copy(alloc)?),
    })
}

fn copy_of_active(alloc: Global, active: &ActiveCall) -> Result<Driver, AllocError>
    ensures { IfOk result (λ copy. copy ≡ kinds.Active active.now) }
{
    Ok(Driver {
        kind: DriverKind::Active(active.copy(alloc)?),
    })
}

fn copy_of_sync(alloc: Global, sync: &SyncCall) -> Result<Driver, AllocError>
    ensures { IfOk result (λ copy. copy ≡ kinds.Sync sync.now) }
{
    Ok(Driver {
        kind: DriverKind::Sync(sync.copy(alloc)?),
    })
}

// An open, which ends at this moment at the latest, if at one.
#[inline(always)]
fn open_start(
    call: CallId,
    name: &SharedName,
    attributes: &SharedAttributes,
    cluster: &Record,
    deadline: Option<Moment>,
) -> Result<Driver, AllocError>
    ensures { IfOk result (λ driver. driver ≡ Open (open_begun call (record { name = name.now; attrs = attributes.now; client = client_of call; node = home_of (client_of call) cluster.now }) deadline)) }
{
    let ask = open_ask(name, attributes, number_of(&call.actor), cluster)?;
    Ok(Driver {
        kind: DriverKind::Open(OpenCall::begin(call, ask, deadline)),
    })
}

// What an open asks of the record for its client.
fn open_ask(
    name: &SharedName,
    attributes: &SharedAttributes,
    client: u8,
    cluster: &Record,
) -> Result<SharedAsk, AllocError>
    ensures { IfOk result (λ ask. ask ≡ record { name = name.now; attrs = attributes.now; client = client; node = home_of client cluster.now }) }
{
    Ok(SharedAsk {
        name: name.share()?,
        attributes: attributes.share()?,
        client,
        node: cluster.home_of(client),
    })
}

// An update of all replicas, or of the active alone, as its checkpoint declares.
fn change_start(call: CallId, update: &Update, cluster: &Record, ckpt: Option<CkptId>) -> Driver
    requires { IsSome (change_start call (declares_at is_all cluster.now ckpt) (kind_of_change (declares_at is_weak cluster.now ckpt) update.now) ckpt) }
    ensures { change_start call (declares_at is_all cluster.now ckpt) (kind_of_change (declares_at is_weak cluster.now ckpt) update.now) ckpt ≡ Some result }
{
    let ckpt = there(ckpt);
    let Some(entry) = cluster.entry(ckpt) else {
        return Driver {
            kind: DriverKind::Active(ActiveCall::begin(call, ckpt, ActiveKind::Apply)),
        };
    };
    if is_all(&entry.attributes) {
        return Driver {
            kind: DriverKind::Update(UpdateCall::begin(call, ckpt)),
        };
    }
    let kind = kind_of_change(is_weak(&entry.attributes), update);
    Driver {
        kind: DriverKind::Active(ActiveCall::begin(call, ckpt, kind)),
    }
}

// A weak write is done element by element, any other update at once.
fn kind_of_change(weak: bool, update: &Update) -> ActiveKind
    ensures { result ≡ kind_of_change weak update.now }
{
    if !weak {
        return ActiveKind::Apply;
    }
    match update {
        Update::Write(elements) => ActiveKind::Weak(elements.as_slice().len() as u32),
        _ => ActiveKind::Apply,
    }
}

fn active_start(call: CallId, kind: ActiveKind, ckpt: Option<CkptId>) -> Driver
    requires { IsSome (active_start call kind ckpt) }
    ensures { active_start call kind ckpt ≡ Some result }
{
    Driver {
        kind: DriverKind::Active(ActiveCall::begin(call, there(ckpt), kind)),
    }
}

fn sync_start(call: CallId, kind: SyncKind, ckpt: Option<CkptId>) -> Driver
    requires { IsSome (sync_start call kind ckpt) }
    ensures { sync_start call kind ckpt ≡ Some result }
{
    Driver {
        kind: DriverKind::Sync(SyncCall::begin(call, there(ckpt), kind)),
    }
}

// The checkpoint of a call that goes on, which keeps one.
fn there(ckpt: Option<CkptId>) -> CkptId
    requires { IsSome ckpt }
    ensures { ckpt ≡ Some result }
{
    let Some(ckpt) = ckpt else { unreachable!() };
    ckpt
}

/// The checkpoint of a step of the record, before it is done.
pub fn event_ckpt(cluster: &Record, driver: &Driver, step: &RecordStep) -> Option<CkptId>
    requires { cluster.now.last_identity < 2 ^ 32 - 1 }
    ensures { result ≡ event_ckpt cluster.now driver.now step.now }
{
    match (&driver.kind, step) {
        (DriverKind::Open(_), RecordStep::Create) => Some(cluster.last_identity() + 1),
        (DriverKind::Open(open_call), RecordStep::Open) => cluster.find(open_call.name()),
        (DriverKind::Open(open_call), RecordStep::Finish | RecordStep::Undo) => open_call.making(),
        (DriverKind::Once(OneStep::Unlink(name)), RecordStep::Unlink) => cluster.find(name.value()),
        (DriverKind::Once(OneStep::Close(ckpt)), RecordStep::Close) => Some(*ckpt),
        (DriverKind::Once(OneStep::Retain(ckpt, _)), RecordStep::Retain) => Some(*ckpt),
        (DriverKind::Sync(sync), RecordStep::Hold(_) | RecordStep::Activate(_)) => Some(
            sync.ckpt(),
        ),
        _ => None,
    }
}

/// The node of a step of the record.
pub fn event_node(driver: &Driver, step: &RecordStep) -> Option<NodeId>
    ensures { result ≡ event_node driver.now step.now }
{
    match (&driver.kind, step) {
        (DriverKind::Once(OneStep::Enter(r)), RecordStep::Enter) => Some(*r),
        (DriverKind::Sync(_), RecordStep::Hold(r) | RecordStep::Activate(r)) => Some(*r),
        _ => None,
    }
}

/// The checkpoint of a step that the record does not refuse, before it is done. What it refuses is an open of what
/// another call is making: then that call.
pub fn event_granted(
    cluster: &Record,
    driver: &Driver,
    step: &RecordStep,
) -> Result<Option<CkptId>, CallId>
    requires { cluster.now.last_identity < 2 ^ 32 - 1 }
    ensures { result ≡ event_granted cluster.now driver.now step.now }
{
    match (step, &driver.kind) {
        (RecordStep::Open, DriverKind::Open(open_call)) => open_call.found(cluster),
        _ => Ok(event_ckpt(cluster, driver, step)),
    }
}
