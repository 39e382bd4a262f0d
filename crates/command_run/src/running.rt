//! A command is run: from its words to the status.
ghost use Rattle.std.specs.Prelude.{◌≡◌, ℕ, List, [], IsTrue, ◌↔◌, codes, bytes_eq, Option, IfSome, IfNone, IfOk, IfErr, IsOk, ◌≤◌};
ghost use Rattle.std.specs.Io.KnownBytes.{Appends};
ghost use Rattle.outside_io.specs.Causes.{Rose};
ghost use Rattle.script_lang.specs.BuiltScripts.{IsBuiltScript};
ghost use Rattle.script_lang.specs.Grammar.{script_of};
ghost use Rattle.script_lang.specs.declared.faults.ScriptFault.{ScriptFault};
ghost use Rattle.world_core.specs.Runs.{IsNew, IsRunTo};
ghost use Rattle.command_run.specs.Ending.{End, Plays, Reads, Tells, end_of};
ghost use Rattle.command_run.specs.Headline.{AsksLoad, EndsLoad, IsCommand, IsRun, asks_steps, HasFault, HasPlayed, PlayedNothing, WritesPart, RanOrNoMemory, printed, status_number, text_of, told};
ghost use Rattle.command_run.specs.Reading.{HasRead};
ghost use Rattle.load_script.specs.Load.{generated, load_max};
ghost use Rattle.load_summary.specs.Summary.{summary};

use crate::reading::{Ended, read_all};
use crate::writing::{Form, write_log};
use load_script::{generate, turns_in};
use outside_io::{Gate, Sink, Source};
use run_labels::RunLog;
use script_lang::{ParseError, Reason, Script, ScriptFault, parse};
use session_run::session;
use std::alloc::Global;
use std::mem;
use std::string::String;
use std::sync::Wait;
use std::thread::Threads;
use world_core::{Cluster, world_law};

/// What kept reading or writing from its end.
#[derive(Clone, Copy)]
pub enum Trouble {
    /// The source or the sink failed.
    Failed,
    /// Memory was refused.
    Memory,
}

/// How a run of the program ends.
#[derive(Clone, Copy, PartialEq, Eq)]
pub enum Status {
    /// The script was run, and its lines were written.
    Ran,
    /// The words are no command.
    Usage,
    /// The script has this fault, the first.
    Script(ScriptFault),
    /// The source failed.
    ReadFault,
    /// The sink failed.
    WriteFault,
    /// Memory was refused.
    NoMemory,
}

impl Status {
    /// The number with which the program ends.
    pub fn number(self) -> u8
        ensures { result ≡ status_number self }
    {
        match self {
            Status::Ran => 0,
            Status::Usage => 2,
            Status::Script(_) => 3,
            Status::ReadFault => 4,
            Status::WriteFault => 5,
            Status::NoMemory => 6,
        }
    }
}

fn is_run(word: &str) -> bool
    ensures { IsTrue result ↔ (word.now ≡ codes "run") }
{
    word == "run"
}

fn is_steps(option: &str) -> bool
    ensures { result ≡ bytes_eq option.now (codes "--steps") }
{
    option == "--steps"
}

// Whether the words are `run`, or `run --steps`.
fn asks_run(words: &[String]) -> bool
    ensures { IsTrue result ↔ IsRun words.now }
{
    match words {
        [word] => is_run(word.as_str()),
        [word, option] => is_run(word.as_str()) && is_steps(option.as_str()),
        _ => false,
    }
}

fn is_load(word: &str) -> bool
    ensures { IsTrue result ↔ (word.now ≡ codes "load") }
{
    word == "load"
}

// The length of the load that the words ask for, where they ask for one.
fn load_asked(words: &[String]) -> Option<u32>
    ensures asked { IfSome result (λ turns. AsksLoad words.now turns) }
    ensures within { IfSome result (λ turns. (1 ≤ turns) × (turns ≤ load_max)) }
    ensures none { IfNone result ((turns : ℕ) → AsksLoad words.now turns → ⊥) }
{
    let [word, count] = words else {
        return None;
    };
    if !is_load(word.as_str()) {
        return None;
    }
    turns_in(count.as_str())
}

// Whether the words are a command.
fn is_command(words: &[String]) -> bool
    ensures { IsTrue result ↔ IsCommand words.now }
{
    match load_asked(words) {
        Some(_) => true,
        None => asks_run(words),
    }
}

// Whether the steps are to be printed too.
fn wants_steps(words: &[String]) -> bool
    ensures { result ≡ asks_steps words.now }
{
    let [_, second] = words else {
        return false;
    };
    is_steps(second.as_str())
}

/// Plays a script that the source gives, or a load that the words ask for, on the cluster, and writes the lines of its
/// log to the sink, or the summary of it. Whatever it answers, the log is a run; what a run promises is read off that by
/// its caller.
pub fn run_command<R: Threads + Wait + Sync, S: Source, K: Sink, G: Gate, W: Cluster>(
    rt: &R,
    alloc: Global,
    words: &[String],
    source: &mut S,
    sink: &mut K,
    gate: &G,
    log: &mut RunLog,
    world: &mut W,
) -> Status
    requires log { log.old.labels ≡ [] }
    requires world { IsNew (W.shown world.old) }
    ensures run { IsRunTo (W.shown world.new) log.new.labels }
    ensures played { HasPlayed words.now result (S.left source.old) (S.left source.new) log.new.labels }
    ensures kept { PlayedNothing result → (sink.new ≡ sink.old) × (world.new ≡ world.old) }
    ensures written { result ≡ Status.Ran → Appends (K.held sink.old) (K.held sink.new) (told words.now log.new.labels) }
    ensures part { WritesPart (K.held sink.old) (K.held sink.new) (told words.now log.new.labels) }
    ensures usage { (result ≡ Status.Usage → IsCommand words.now → ⊥) × ((IsCommand words.now → ⊥) → result ≡ Status.Usage) }
    ensures unread { result ≡ Status.Usage → source.new ≡ source.old }
    ensures load { (turns : ℕ) → AsksLoad words.now turns → (source.new ≡ source.old) × EndsLoad result }
    ensures script { (fault : ScriptFault) → result ≡ Status.Script fault → HasFault (S.left source.old) (S.left source.new) fault }
    ensures read { result ≡ Status.ReadFault → Rose (S.faults source.old) (S.faults source.new) }
    ensures write { result ≡ Status.WriteFault → Rose (K.faults sink.old) (K.faults sink.new) }
    ensures complete { IsRun words.now → IfSome (S.left source.old) (λ input. IsOk (script_of input) →
        (Rose (S.faults source.old) (S.faults source.new) → ⊥) → (Rose (K.faults sink.old) (K.faults sink.new) → ⊥) → RanOrNoMemory result) }
{
    if !is_command(words) {
        world_law();
        return Status::Usage;
    }
    run_asked(rt, alloc, words, source, sink, gate, log, world)
}

// What the command does behind its words, which ask for a run or for a load.
fn run_asked<R: Threads + Wait + Sync, S: Source, K: Sink, G: Gate, W: Cluster>(
    rt: &R,
    alloc: Global,
    words: &[String],
    source: &mut S,
    sink: &mut K,
    gate: &G,
    log: &mut RunLog,
    world: &mut W,
) -> Status
    requires log { log.old.labels ≡ [] }
    requires world { IsNew (W.shown world.old) }
    requires words { IsCommand words.now }
    ensures run { IsRunTo (W.shown world.new) log.new.labels }
    ensures kept { PlayedNothing result → (sink.new ≡ sink.old) × (world.new ≡ world.old) }
    ensures unread { (turns : ℕ) → AsksLoad words.now turns → source.new ≡ source.old }
    ensures told { Tells words.now (end_of (S.left source.old) (S.faults source.old)) (end_of (S.left source.new) (S.faults source.new))
        (end_of (K.held sink.old) (K.faults sink.old)) (end_of (K.held sink.new) (K.faults sink.new))
        log.new.labels (told words.now log.new.labels) result }
{
    match load_asked(words) {
        Some(turns) => run_load(rt, alloc, words, turns, sink, gate, log, world),
        None => run_script(rt, alloc, words, source, sink, gate, log, world),
    }
}

// What the command does behind the words of a run.
fn run_script<R: Threads + Wait + Sync, S: Source, K: Sink, G: Gate, W: Cluster>(
    rt: &R,
    alloc: Global,
    words: &[String],
    source: &mut S,
    sink: &mut K,
    gate: &G,
    log: &mut RunLog,
    world: &mut W,
) -> Status
    requires log { log.old.labels ≡ [] }
    requires world { IsNew (W.shown world.old) }
    requires words { IsRun words.now }
    ensures run { IsRunTo (W.shown world.new) log.new.labels }
    ensures kept { PlayedNothing result → (sink.new ≡ sink.old) × (world.new ≡ world.old) }
    ensures told { Tells words.now (end_of (S.left source.old) (S.faults source.old)) (end_of (S.left source.new) (S.faults source.new))
        (end_of (K.held sink.old) (K.faults sink.old)) (end_of (K.held sink.new) (K.faults sink.new))
        log.new.labels (printed (asks_steps words.now) log.new.labels) result }
{
    world_law();
    let script = match read_script(alloc, source) {
        Ok(script) => script,
        Err(status) => return status,
    };
    let form = Form::Lines(wants_steps(words));
    let status = play_script(rt, alloc, &script, form, sink, gate, log, world);
    // The program ends soon, and gives all lines back at once.
    mem::forget(script);
    status
}

// What the command does behind the words of a load: it looks at no source.
fn run_load<R: Threads + Wait + Sync, K: Sink, G: Gate, W: Cluster>(
    rt: &R,
    alloc: Global,
    words: &[String],
    turns: u32,
    sink: &mut K,
    gate: &G,
    log: &mut RunLog,
    world: &mut W,
) -> Status
    requires log { log.old.labels ≡ [] }
    requires world { IsNew (W.shown world.old) }
    requires words { AsksLoad words.now turns }
    requires some { 1 ≤ turns }
    requires few { turns ≤ load_max }
    ensures run { IsRunTo (W.shown world.new) log.new.labels }
    ensures kept { PlayedNothing result → (sink.new ≡ sink.old) × (world.new ≡ world.old) }
    ensures told { (source : End) → Tells words.now source source
        (end_of (K.held sink.old) (K.faults sink.old)) (end_of (K.held sink.new) (K.faults sink.new))
        log.new.labels (summary log.new.labels) result }
{
    world_law();
    let script = match make_load(alloc, turns) {
        Ok(script) => script,
        Err(status) => return status,
    };
    let status = play_script(rt, alloc, &script, Form::Summary, sink, gate, log, world);
    // As behind a run.
    mem::forget(script);
    status
}

// The script of a load, or how the program ends without one.
fn make_load(alloc: Global, turns: u32) -> Result<Script, Status>
    requires some { 1 ≤ turns }
    requires few { turns ≤ load_max }
    ensures generated { IfOk result (λ script. script ≡ generated turns) }
    ensures built { IfOk result IsBuiltScript }
    ensures cause { IfErr result (λ status. status ≡ Status.NoMemory) }
{
    match generate(alloc, turns) {
        Ok(script) => Ok(script),
        Err(_) => Err(Status::NoMemory),
    }
}

// The script that the source gives, or how the program ends without one.
fn read_script<S: Source>(alloc: Global, source: &mut S) -> Result<Script, Status>
    ensures { Reads (S.left source.old) (S.left source.new) (S.faults source.old) (S.faults source.new) result }
{
    match read_all(alloc, source) {
        Ok((bytes, ended)) => script_in(alloc, bytes.as_slice(), ended),
        Err(Trouble::Failed) => Err(Status::ReadFault),
        Err(Trouble::Memory) => Err(Status::NoMemory),
    }
}

// The script that the bytes of a source are, or how the program ends without one.
fn script_in(alloc: Global, bytes: &[u8], ended: Ended) -> Result<Script, Status>
    ensures { (old new : Option (List ℕ)) → (before now : ℕ) → HasRead old new bytes.now ended → Reads old new before now result }
{
    if let Ended::TooLong = ended {
        return Err(Status::Script(ScriptFault {
            line: 0,
            reason: Reason::Length,
        }));
    }
    match parse(alloc, bytes) {
        Ok(script) => Ok(script),
        Err(ParseError::Fault(fault)) => Err(Status::Script(fault)),
        Err(ParseError::NoMemory) => Err(Status::NoMemory),
    }
}

// Plays a script, and writes what is told of the log.
fn play_script<R: Threads + Wait + Sync, K: Sink, G: Gate, W: Cluster>(
    rt: &R,
    alloc: Global,
    script: &Script,
    form: Form,
    sink: &mut K,
    gate: &G,
    log: &mut RunLog,
    world: &mut W,
) -> Status
    requires log { log.old.labels ≡ [] }
    requires world { IsNew (W.shown world.old) }
    requires built { IsBuiltScript script.now }
    ensures run { IsRunTo (W.shown world.new) log.new.labels }
    ensures plays { Plays script.now log.new.labels (K.held sink.old) (K.held sink.new) (text_of form log.new.labels) (K.faults sink.old) (K.faults sink.new) result }
{
    if session(rt, alloc, script, gate, log, world).is_err() {
        return Status::NoMemory;
    }
    match write_log(alloc, sink, log, form) {
        Ok(()) => Status::Ran,
        Err(Trouble::Failed) => Status::WriteFault,
        Err(Trouble::Memory) => Status::NoMemory,
    }
}
