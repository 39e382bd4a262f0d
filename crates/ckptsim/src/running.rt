//! The top call: from the words of the command to the status.
ghost use Rattle.std.specs.Prelude.{◌≡◌, ℕ, [], IfSome, IsOk};
ghost use Rattle.std.specs.Io.KnownBytes.{Appends};
ghost use Rattle.outside_io.specs.Causes.{Rose};
ghost use Rattle.script_lang.specs.Grammar.{script_of};
ghost use Rattle.script_lang.specs.declared.faults.ScriptFault.{ScriptFault};
ghost use Rattle.ckpt_machine.specs.Acknowledged.{AcknowledgedStay};
ghost use Rattle.ckpt_machine.specs.Replays.{EffectsTellThroughout};
ghost use Rattle.ckpt_machine.specs.InOrder.{EffectsKeepOrder};
ghost use Rattle.ckpt_machine.specs.BrokenCorrupt.{OnlyBrokenCorrupt};
ghost use Rattle.ckpt_machine.specs.Stays.{ReplicasStay};
ghost use Rattle.ckpt_machine.specs.Synchronized.{SynchronizedTell};
ghost use Rattle.ckpt_machine.specs.WasAsked.{OnlyAskedThroughout};
ghost use Rattle.ckpt_machine.specs.Owners.{OwnersInHandThroughout};
ghost use Rattle.ckpt_machine.specs.ActivesSet.{ActivesAreSet};
ghost use Rattle.ckpt_machine.specs.CallsEnd.{CallsEnd};
ghost use Rattle.ckpt_machine.specs.Copied.{CopiesTell};
ghost use Rattle.ckpt_machine.specs.Causes.{EachEndIsAllowed};
ghost use Rattle.ckpt_machine.specs.References.{HandlesAreReferencesThroughout};
ghost use Rattle.ckpt_machine.specs.Callbacks.{CallbacksTold};
ghost use Rattle.ckpt_machine.specs.AllOrNone.{IsAllOrNoneThroughout};
ghost use Rattle.ckpt_machine.specs.Refusals.{EachRefusalLeaves};
ghost use Rattle.world_core.specs.Runs.{IsNew, IsRunTo};
ghost use Rattle.command_run.specs.Headline.{AsksLoad, EndsLoad, IsCommand, IsRun, HasFault, HasPlayed, PlayedNothing, WritesPart, RanOrNoMemory, told};

use ckpt_machine::machine_law;
use command_run::{Status, run_command};
use outside_io::{Gate, Sink, Source};
use run_labels::RunLog;
use std::alloc::Global;
use std::string::String;
use std::sync::Wait;
use std::thread::Threads;
use world_core::World;

/// Plays a script that the source gives, or a load that the words ask for, on the cluster, and writes the lines of its
/// log to the sink, or the summary of it.
pub fn ckpt_run<R: Threads + Wait + Sync, S: Source, K: Sink, G: Gate>(
    rt: &R,
    alloc: Global,
    words: &[String],
    source: &mut S,
    sink: &mut K,
    gate: &G,
    log: &mut RunLog,
    world: &mut World,
) -> Status
    requires log { log.old.labels ≡ [] }
    requires world { IsNew world.old }

    // Whatever the answer, the log is a run of the checkpoint machine, and the world shows its last state.
    ensures run { IsRunTo world.new log.new.labels }

    // What a run promises, each told in full at its field of KeepsPromises, in ckpt_machine.
    ensures refused { EachRefusalLeaves log.new.labels }
    ensures all_or_none { IsAllOrNoneThroughout log.new.labels }
    ensures acknowledged { AcknowledgedStay log.new.labels }
    ensures effects { EffectsTellThroughout log.new.labels }
    ensures order { EffectsKeepOrder log.new.labels }
    ensures stay { ReplicasStay log.new.labels }
    ensures corrupted { OnlyBrokenCorrupt log.new.labels }
    ensures synchronized { SynchronizedTell log.new.labels }
    ensures asked { OnlyAskedThroughout log.new.labels }
    ensures owners { OwnersInHandThroughout log.new.labels }
    ensures copies { CopiesTell log.new.labels }
    ensures actives { ActivesAreSet log.new.labels }
    ensures ends { CallsEnd log.new.labels }
    ensures causes { EachEndIsAllowed log.new.labels }
    ensures references { HandlesAreReferencesThroughout log.new.labels }
    ensures callbacks { CallbacksTold log.new.labels }

    // The log follows the script that was read, or the load, all of it or a front; or nothing was played.
    ensures played { HasPlayed words.now result (S.left source.old) (S.left source.new) log.new.labels }
    ensures kept { PlayedNothing result → (sink.new ≡ sink.old) × (world.new ≡ world.old) }

    // What the words ask to be told of the log was written, and nothing else; or a front of it.
    ensures written { result ≡ Status.Ran → Appends (K.held sink.old) (K.held sink.new) (told words.now log.new.labels) }
    ensures part { WritesPart (K.held sink.old) (K.held sink.new) (told words.now log.new.labels) }

    // Each other answer has its cause.
    ensures usage { (result ≡ Status.Usage → IsCommand words.now → ⊥) × ((IsCommand words.now → ⊥) → result ≡ Status.Usage) }
    ensures unread { result ≡ Status.Usage → source.new ≡ source.old }
    ensures load { (turns : ℕ) → AsksLoad words.now turns → (source.new ≡ source.old) × EndsLoad result }
    ensures script { (fault : ScriptFault) → result ≡ Status.Script fault → HasFault (S.left source.old) (S.left source.new) fault }
    ensures read { result ≡ Status.ReadFault → Rose (S.faults source.old) (S.faults source.new) }
    ensures write { result ≡ Status.WriteFault → Rose (K.faults sink.old) (K.faults sink.new) }

    // The words of a run, a script and no fault: it ran, or memory ran out.
    ensures complete { IsRun words.now → IfSome (S.left source.old) (λ input. IsOk (script_of input) →
        (Rose (S.faults source.old) (S.faults source.new) → ⊥) → (Rose (K.faults sink.old) (K.faults sink.new) → ⊥) → RanOrNoMemory result) }
{
    machine_law();
    run_command(rt, alloc, words, source, sink, gate, log, world)
}
