//! A copy of a cluster goes on from where that is, and goes its own way.
ghost use Rattle.world_core.specs.Runs.{IsNew, IsRunTo};

use crate::played::owned;
use crate::rows::{holds, met};
use ckpt_types::{ActorName, Who};
use command_run::{Status, run_command};
use outside_io::{MemSink, MemSource, OpenGate};
use run_labels::RunLog;
use std::alloc::{AllocError, Global};
use std::process::Abort;
use std::string::String;
use std::sync::Wait;
use std::thread::Threads;
use world_core::{Cluster, Event, World, WorldParts};

// A write that is committed on one of two nodes.
const HALF_DONE: &[u8] =
    b"nodes 2\nclient c0 n1 B.2.2 none\nopen c0 h0 'ck 7 end 1 16 0 1 16 8\nbegin write c0 h0 x 0 'abc\nstep c0 3\n";

const FIRST: Who = Who::Actor(ActorName::Client(0));

/// The next step of c0, with one label more.
fn steps(alloc: Global, world: &mut World, log: &mut RunLog) -> Result<bool, AllocError>
    requires { IsRunTo world.old log.old.labels }
{
    let before = log.len();
    if before > 1000 {
        return Ok(false);
    }
    world.event(alloc, Event::Step(FIRST, false), log)?;
    Ok(log.len() == before + 1)
}

/// The copy commits on the other node, and the write of the cluster is in hand as before.
fn go_apart(rt: &impl Abort, alloc: Global, world: &World, copy: &mut World, log: &mut RunLog)
    requires { IsRunTo copy.old log.old.labels }
{
    holds(rt, 2, world.in_hand(FIRST) && copy.in_hand(FIRST));
    met(rt, 3, steps(alloc, copy, log));
    holds(rt, 4, world.in_hand(FIRST) && !copy.in_hand(FIRST));
}

/// What a copy is taken apart into tells of c0 that it has begun three calls, and has one in hand on n1.
fn tells_of_first(parts: &WorldParts) -> bool {
    if parts.nodes.len() != 8 || parts.clients.len() != 100 {
        return false;
    }
    if parts.busy.len() != 100 || parts.next.len() != 100 {
        return false;
    }
    parts.busy[0] == Some(1) && parts.busy[1].is_none() && parts.next[0] == 4
}

fn copy_is_taken_apart(alloc: Global, world: &World) -> Result<bool, AllocError> {
    let copy = world.copy(alloc)?;
    let parts = copy.into_parts(alloc)?;
    Ok(tells_of_first(&parts) && parts.clients[0].is_some() && parts.clients[1].is_none())
}

fn copy_goes_apart(
    rt: &impl Abort,
    alloc: Global,
    world: &World,
    log: &mut RunLog,
) -> Result<(), AllocError>
    requires { IsRunTo world.now log.old.labels }
{
    met(rt, 5, copy_is_taken_apart(alloc, world));
    let mut copy = world.copy(alloc)?;
    go_apart(rt, alloc, world, &mut copy, log);
    Ok(())
}

/// The script is played on a new cluster, and then a copy of that goes on.
fn play<R: Abort + Threads + Wait + Sync>(
    rt: &R,
    alloc: Global,
    words: &[String],
    world: &mut World,
) -> Result<(), AllocError>
    requires { IsNew world.old }
{
    let mut source = MemSource::new(alloc, HALF_DONE, &[])?;
    let mut sink = MemSink::new(alloc, 4096, &[])?;
    let mut log = RunLog::new(alloc);
    let status = run_command(
        rt,
        alloc,
        words,
        &mut source,
        &mut sink,
        &OpenGate,
        &mut log,
        world,
    );
    holds(rt, 1, status == Status::Ran);
    copy_goes_apart(rt, alloc, world, &mut log)
}

#[test]
fn a_copy_of_a_cluster_goes_its_own_way(rt: HostRuntime) -> Result<(), AllocError> {
    let alloc = rt.alloc();
    let words = owned(alloc, &["run"])?;
    let mut world = World::new(alloc)?;
    play(&rt, alloc, words.as_slice(), &mut world)
}
