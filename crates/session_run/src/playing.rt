//! A script is played line by line.
ghost use Rattle.std.specs.Prelude.{◌≡◌, ◌+◌, ◌-◌, ◌*◌, ◌<◌, ◌≤◌, ◌^◌, [], length, OnOk};
ghost use Rattle.ckpt_types.specs.Limits.{built_line_labels, played_lines_max};
ghost use Rattle.script_lang.specs.Grammar.{moment_behind};
ghost use Rattle.ckpt_machine.specs.Promises.{KeepsPromises};
ghost use Rattle.ckpt_machine.specs.Runs.{last};
ghost use Rattle.world_core.specs.Runs.{IsNew, IsRunTo};
ghost use Rattle.session_run.specs.Follows.{AnswersLine, Follows, FollowsFront};
ghost use Rattle.session_run.specs.Growing.{CanPlay, GrowsBy, GrowsTowards};
ghost use Rattle.session_run.specs.Playable.{IsPlayable};

use crate::calls::{begin_of, finish_of, play_call, play_copy, steps_of};
use crate::propagation::propagate;
use ckpt_machine::machine_law;
use outside_io::Gate;
use run_labels::RunLog;
use script_lang::{Line, Script};
use std::alloc::{AllocError, Global};
use std::sync::Wait;
use std::thread::Threads;
use world_core::{Cluster, Event, world_law};

// Most lines give no more labels.
const LABELS_A_LINE: usize = 3;

/// Plays a script. The log is a run that follows it, and the world shows the state after it. Where
/// memory for the log or for an event is refused, the log is a run all the same, and follows it as far as it goes.
pub fn session<R: Threads + Wait + Sync, G: Gate, W: Cluster>(
    _rt: &R,
    alloc: Global,
    script: &Script,
    _gate: &G,
    log: &mut RunLog,
    world: &mut W,
) -> Result<(), AllocError>
    requires log { log.old.labels ≡ [] }
    requires world { IsNew (W.shown world.old) }
    requires form { IsPlayable script.now }
    requires lines { length script.now ≤ played_lines_max }
    ensures run { IsRunTo (W.shown world.new) log.new.labels }
    ensures follows { OnOk result (Follows script.now log.new.labels) }
    ensures front { FollowsFront script.now log.new.labels }

    // The log is a run, so it keeps all that a run promises.
    ensures promises { KeepsPromises log.new.labels }
{
    machine_law();

    // Where room is refused at once, it is asked for again as it is needed.
    let _ = log.reserve(LABELS_A_LINE * script.as_slice().len());
    play(alloc, script.as_slice(), log, world)
}

fn play<W: Cluster>(
    alloc: Global,
    lines: &[Line],
    log: &mut RunLog,
    world: &mut W,
) -> Result<(), AllocError>
    requires log { log.old.labels ≡ [] }
    requires world { IsNew (W.shown world.old) }
    requires form { IsPlayable lines.now }
    requires lines { length lines.now ≤ played_lines_max }
    ensures run { IsRunTo (W.shown world.new) log.new.labels }
    ensures follows { OnOk result (Follows lines.now log.new.labels) }
    ensures front { FollowsFront lines.now log.new.labels }
{
    world_law();
    for line in lines {
        play_line(alloc, line, log, world)?;
    }
    Ok(())
}

// One line: its labels, from the first to the last.
fn play_line<W: Cluster>(
    alloc: Global,
    line: &Line,
    log: &mut RunLog,
    world: &mut W,
) -> Result<(), AllocError>
    requires run { IsRunTo (W.shown world.old) log.old.labels }
    requires comes { CanPlay (W.shown world.old).cluster.moment log.old.labels line.now }
    requires room { length log.old.labels + built_line_labels < 2 ^ 32 - 2 }
    ensures run { IsRunTo (W.shown world.new) log.new.labels }
    ensures few { length log.new.labels ≤ length log.old.labels + built_line_labels }
    ensures moment { OnOk result ((W.shown world.new).cluster.moment ≡ moment_behind (W.shown world.old).cluster.moment line.now) }
    ensures answers { OnOk result (GrowsBy log.old.labels log.new.labels (AnswersLine (last log.old.labels) line.now)) }
    ensures front { GrowsTowards log.old.labels log.new.labels (AnswersLine (last log.old.labels) line.now) }
{
    match line {
        Line::Nodes(count) => world.event(alloc, Event::Nodes(*count), log),
        Line::Call(client, op) => play_call(alloc, *client, op, log, world),
        Line::Begin(actor, op) => begin_of(alloc, *actor, op, log, world),
        Line::Step(who, most) => steps_of(alloc, *who, *most, log, world),
        Line::Finish(who) => finish_of(alloc, *who, log, world),
        Line::At(t) => world.event(alloc, Event::At(*t), log),
        Line::Pull(ckpt) => world.event(alloc, Event::Pull(*ckpt), log),
        Line::Put(ckpt, node) => world.event(alloc, Event::Put(*ckpt, *node), log),
        Line::Propagate(ckpt) => propagate(alloc, *ckpt, log, world),
        Line::Show(ckpt) => world.event(alloc, Event::Show(*ckpt), log),
        Line::Copy(node) => play_copy(alloc, *node, log, world),
        Line::Fail(node) => world.event(alloc, Event::Fail(*node), log),
        Line::Join(node) => world.event(alloc, Event::Join(*node), log),
        _ => unreachable!(),
    }
}
