//! The lines of calls and copyings: each begins, is stepped, and is finished.
ghost use Rattle.std.specs.Prelude.{◌≡◌, ◌+◌, ◌-◌, ◌<◌, ◌≤◌, ◌^◌, length, None, OnOk, OnErr, false};
ghost use Rattle.ckpt_types.specs.declared.identities.ActorName.TheVariants.{Client, Node};
ghost use Rattle.ckpt_types.specs.declared.operation.Op.TheVariants as ops;
ghost use Rattle.ckpt_types.specs.declared.identities.Who.TheVariants.{Actor};
ghost use Rattle.ckpt_types.specs.Asks.{MayAsk, asked, IsBuilt};
ghost use Rattle.ckpt_types.specs.Limits.{built_line_labels, nodes_max};
ghost use Rattle.run_labels.specs.declared.words.LineWord.TheVariants as linewords;
ghost use Rattle.ckpt_machine.specs.Runs.{last};
ghost use Rattle.world_core.specs.declared.world.Event.TheVariants as happenings;
ghost use Rattle.world_core.specs.Runs.{IsRunTo, Happens, MayBeStepped};
ghost use Rattle.world_core.specs.StepsLeft.{ComesNearer, left_of};
ghost use Rattle.world_core.specs.HandsState.{hand_at};
ghost use Rattle.session_run.specs.Follows.{AreSteps, IsBegunCall, IsWholeCall, StepsToEnd, StepsUpTo, stepped_call};
ghost use Rattle.session_run.specs.Growing.{GrowsBy, GrowsTowards, IsFinish, IsStepping};

use ckpt_types::{ActorName, NodeId, Op, Who};
use run_labels::RunLog;
use std::alloc::{AllocError, Global};
use world_core::{Cluster, Event, world_law};

/// A call of a client, from its beginning to its end, and of an asynchronous one its beginning alone; where the client
/// has one in hand, the word that says so.
pub(crate) fn play_call<W: Cluster>(
    alloc: Global,
    client: u8,
    op: &Op,
    log: &mut RunLog,
    world: &mut W,
) -> Result<(), AllocError>
    requires run { IsRunTo (W.shown world.old) log.old.labels }
    requires asker { MayAsk (Client client) (asked op.now) }
    requires built { IsBuilt op.now }
    requires room { length log.old.labels + built_line_labels < 2 ^ 32 - 2 }
    ensures run { IsRunTo (W.shown world.new) log.new.labels }
    ensures few { length log.new.labels ≤ length log.old.labels + built_line_labels }
    ensures moment { OnOk result ((W.shown world.new).cluster.moment ≡ (W.shown world.old).cluster.moment) }
    ensures answers { OnOk result (GrowsBy log.old.labels log.new.labels (IsWholeCall (last log.old.labels) (Client client) op.now)) }
    ensures front { GrowsTowards log.old.labels log.new.labels (IsWholeCall (last log.old.labels) (Client client) op.now) }
{
    let who = Who::Actor(ActorName::Client(client));
    if world.in_hand(who) {
        return begin(alloc, client, op, log, world);
    }
    world_law();
    begin(alloc, client, op, log, world)?;
    finish(alloc, who, log, world)
}

/// The copying of a node, from its beginning to its end; where one is in hand, or the node is not up, the word that says
/// so.
pub(crate) fn play_copy<W: Cluster>(
    alloc: Global,
    node: NodeId,
    log: &mut RunLog,
    world: &mut W,
) -> Result<(), AllocError>
    requires run { IsRunTo (W.shown world.old) log.old.labels }
    requires node { node < nodes_max }
    requires room { length log.old.labels + built_line_labels < 2 ^ 32 - 2 }
    ensures run { IsRunTo (W.shown world.new) log.new.labels }
    ensures few { length log.new.labels ≤ length log.old.labels + built_line_labels }
    ensures moment { OnOk result ((W.shown world.new).cluster.moment ≡ (W.shown world.old).cluster.moment) }
    ensures answers { OnOk result (GrowsBy log.old.labels log.new.labels (IsWholeCall (last log.old.labels) (Node node) ops.Copy)) }
    ensures front { GrowsTowards log.old.labels log.new.labels (IsWholeCall (last log.old.labels) (Node node) ops.Copy) }
{
    let who = Who::Actor(ActorName::Node(node));
    if world.in_hand(who) {
        return begin_copy(alloc, node, log, world);
    }
    world_law();
    begin_copy(alloc, node, log, world)?;
    finish(alloc, who, log, world)
}

/// The beginning of a call, or the word that answers its line.
pub(crate) fn begin_of<W: Cluster>(
    alloc: Global,
    actor: ActorName,
    op: &Op,
    log: &mut RunLog,
    world: &mut W,
) -> Result<(), AllocError>
    requires run { IsRunTo (W.shown world.old) log.old.labels }
    requires asker { MayAsk actor (asked op.now) }
    requires built { IsBuilt op.now }
    requires room { length log.old.labels + built_line_labels < 2 ^ 32 - 2 }
    ensures run { IsRunTo (W.shown world.new) log.new.labels }
    ensures few { length log.new.labels ≤ length log.old.labels + built_line_labels }
    ensures moment { OnOk result ((W.shown world.new).cluster.moment ≡ (W.shown world.old).cluster.moment) }
    ensures answers { OnOk result (GrowsBy log.old.labels log.new.labels (IsBegunCall (last log.old.labels) actor op.now)) }
    ensures front { GrowsTowards log.old.labels log.new.labels (IsBegunCall (last log.old.labels) actor op.now) }
{
    match actor {
        ActorName::Client(client) => begin(alloc, client, op, log, world),
        ActorName::Node(node) => begin_copy(alloc, node, log, world),
    }
}

// The copying of a node begins.
fn begin_copy<W: Cluster>(
    alloc: Global,
    node: NodeId,
    log: &mut RunLog,
    world: &mut W,
) -> Result<(), AllocError>
    requires run { IsRunTo (W.shown world.old) log.old.labels }
    requires node { node < nodes_max }
    requires room { length log.old.labels < 2 ^ 32 - 2 }
    ensures run { IsRunTo (W.shown world.new) log.new.labels }
    ensures happens { OnOk result (Happens (happenings.Begin (Node node) ops.Copy) (W.shown world.old) (W.shown world.new) log.old.labels log.new.labels) }
    ensures err { OnErr result (log.new.labels ≡ log.old.labels) }
{
    let event = Event::Begin(ActorName::Node(node), Op::Copy);
    world.event(alloc, event, log)
}

// A call begins, of an operation that shares what the line has. The most used are told apart, so that each is known where
// its event is made.
#[inline(always)]
fn begin<W: Cluster>(
    alloc: Global,
    client: u8,
    op: &Op,
    log: &mut RunLog,
    world: &mut W,
) -> Result<(), AllocError>
    requires run { IsRunTo (W.shown world.old) log.old.labels }
    requires asker { MayAsk (Client client) (asked op.now) }
    requires built { IsBuilt op.now }
    requires room { length log.old.labels < 2 ^ 32 - 2 }
    ensures run { IsRunTo (W.shown world.new) log.new.labels }
    ensures happens { OnOk result (Happens (happenings.Begin (Client client) op.now) (W.shown world.old) (W.shown world.new) log.old.labels log.new.labels) }
    ensures err { OnErr result (log.new.labels ≡ log.old.labels) }
{
    match op {
        Op::Write(place, update) => {
            begin_with(
                alloc,
                client,
                Op::Write(*place, update.share()?),
                log,
                world,
            )
        }
        Op::Read(place, elements) => {
            begin_with(
                alloc,
                client,
                Op::Read(*place, elements.share()?),
                log,
                world,
            )
        }
        _ => begin_with(alloc, client, op.share()?, log, world),
    }
}

#[inline(always)]
fn begin_with<W: Cluster>(
    alloc: Global,
    client: u8,
    op: Op,
    log: &mut RunLog,
    world: &mut W,
) -> Result<(), AllocError>
    requires run { IsRunTo (W.shown world.old) log.old.labels }
    requires asker { MayAsk (Client client) (asked op) }
    requires built { IsBuilt op }
    requires room { length log.old.labels < 2 ^ 32 - 2 }
    ensures run { IsRunTo (W.shown world.new) log.new.labels }
    ensures happens { OnOk result (Happens (happenings.Begin (Client client) op) (W.shown world.old) (W.shown world.new) log.old.labels log.new.labels) }
    ensures err { OnErr result (log.new.labels ≡ log.old.labels) }
{
    let event = Event::Begin(ActorName::Client(client), op);
    world.event(alloc, event, log)
}

/// At most so many steps of the call in hand that is named, fewer where it ends; where there is none, the word that says
/// so.
pub(crate) fn steps_of<W: Cluster>(
    alloc: Global,
    who: Who,
    most: u32,
    log: &mut RunLog,
    world: &mut W,
) -> Result<(), AllocError>
    requires run { IsRunTo (W.shown world.old) log.old.labels }
    requires comes { MayBeStepped who }
    requires room { length log.old.labels + built_line_labels < 2 ^ 32 - 2 }
    ensures run { IsRunTo (W.shown world.new) log.new.labels }
    ensures few { length log.new.labels ≤ length log.old.labels + built_line_labels }
    ensures moment { OnOk result ((W.shown world.new).cluster.moment ≡ (W.shown world.old).cluster.moment) }
    ensures answers { OnOk result (GrowsBy log.old.labels log.new.labels (AreSteps (stepped_call (last log.old.labels) who) who linewords.Step (λ call. StepsUpTo call most None))) }
    ensures front { GrowsTowards log.old.labels log.new.labels (AreSteps (stepped_call (last log.old.labels) who) who linewords.Step (λ call. StepsUpTo call most None)) }
{
    if !world.in_hand(who) {
        return world.event(alloc, Event::Step(who, false), log);
    }
    world_law();
    steps(alloc, who, most, log, world)
}

/// The steps of the call in hand that is named, to its end; where there is none, the word that says so.
pub(crate) fn finish_of<W: Cluster>(
    alloc: Global,
    who: Who,
    log: &mut RunLog,
    world: &mut W,
) -> Result<(), AllocError>
    requires run { IsRunTo (W.shown world.old) log.old.labels }
    requires comes { MayBeStepped who }
    requires room { length log.old.labels + built_line_labels < 2 ^ 32 - 2 }
    ensures run { IsRunTo (W.shown world.new) log.new.labels }
    ensures few { length log.new.labels ≤ length log.old.labels + built_line_labels }
    ensures moment { OnOk result ((W.shown world.new).cluster.moment ≡ (W.shown world.old).cluster.moment) }
    ensures answers { OnOk result (GrowsBy log.old.labels log.new.labels (AreSteps (stepped_call (last log.old.labels) who) who linewords.Finish (λ call. StepsToEnd call None))) }
    ensures front { GrowsTowards log.old.labels log.new.labels (AreSteps (stepped_call (last log.old.labels) who) who linewords.Finish (λ call. StepsToEnd call None)) }
{
    if !world.in_hand(who) {
        return world.event(alloc, Event::Step(who, true), log);
    }
    world_law();
    finish(alloc, who, log, world)
}

// At most so many steps of the call in hand, fewer where it ends.
fn steps<W: Cluster>(
    alloc: Global,
    who: Who,
    most: u32,
    log: &mut RunLog,
    world: &mut W,
) -> Result<(), AllocError>
    requires run { IsRunTo (W.shown world.old) log.old.labels }
    requires comes { MayBeStepped who }
    requires room { length log.old.labels + left_of (W.shown world.old) who < 2 ^ 32 - 2 }
    ensures run { IsRunTo (W.shown world.new) log.new.labels }
    ensures few { length log.new.labels ≤ length log.old.labels + left_of (W.shown world.old) who }
    ensures moment { OnOk result ((W.shown world.new).cluster.moment ≡ (W.shown world.old).cluster.moment) }
    ensures steps { OnOk result (GrowsBy log.old.labels log.new.labels (IsStepping most (hand_at (W.shown world.old).hands who))) }
    ensures front { GrowsTowards log.old.labels log.new.labels (IsStepping most (hand_at (W.shown world.old).hands who)) }
{
    for _done in 0..most {
        if !world.in_hand(who) {
            return Ok(());
        }
        step(alloc, who, log, world)?;
    }
    Ok(())
}

// The steps of the call in hand, to its end.
#[inline(always)]
fn finish<W: Cluster>(
    alloc: Global,
    who: Who,
    log: &mut RunLog,
    world: &mut W,
) -> Result<(), AllocError>
    requires run { IsRunTo (W.shown world.old) log.old.labels }
    requires comes { MayBeStepped who }
    requires room { length log.old.labels + left_of (W.shown world.old) who < 2 ^ 32 - 2 }
    ensures run { IsRunTo (W.shown world.new) log.new.labels }
    ensures few { length log.new.labels ≤ length log.old.labels + left_of (W.shown world.old) who }
    ensures moment { OnOk result ((W.shown world.new).cluster.moment ≡ (W.shown world.old).cluster.moment) }
    ensures steps { OnOk result (GrowsBy log.old.labels log.new.labels (IsFinish (hand_at (W.shown world.old).hands who))) }
    ensures front { GrowsTowards log.old.labels log.new.labels (IsFinish (hand_at (W.shown world.old).hands who)) }
{
    'stepping: while world.in_hand(who) {
        step(alloc, who, log, world)?;
    }
    Ok(())
}

// The next step of the call in hand.
#[inline(always)]
fn step<W: Cluster>(
    alloc: Global,
    who: Who,
    log: &mut RunLog,
    world: &mut W,
) -> Result<(), AllocError>
    requires run { IsRunTo (W.shown world.old) log.old.labels }
    requires comes { MayBeStepped who }
    requires room { length log.old.labels < 2 ^ 32 - 2 }
    ensures run { IsRunTo (W.shown world.new) log.new.labels }
    ensures happens { OnOk result (Happens (happenings.Step who false) (W.shown world.old) (W.shown world.new) log.old.labels log.new.labels) }
    ensures nearer { OnOk result (ComesNearer (happenings.Step who false) (W.shown world.old) (W.shown world.new)) }
    ensures err { OnErr result (log.new.labels ≡ log.old.labels) }
{
    let event = Event::Step(who, false);
    world.event(alloc, event, log)
}
