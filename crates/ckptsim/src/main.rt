//! `ckptsim run` reads a cluster script from standard input, plays it on the Checkpoint Service, and prints
//! every result to standard output. `ckptsim run --steps` prints each step of a call and each moment too. `ckptsim load
//! NUMBER` plays a generated load of so many writes and reads, and prints how many calls ended and how.
#![tactic(auto)]

mod running;

use command_run::{Status, StdArguments, words};
use outside_io::{OpenGate, StdSink, StdSource};
use run_labels::RunLog;
use running::ckpt_run;
use std::alloc::Global;
use std::process::ExitCode;
use std::string::String;
use std::sync::Wait;
use std::thread::Threads;
use std::{io, mem};
use world_core::World;

fn main(rt: HostRuntime) -> ExitCode {
    let status = match words(&StdArguments::new(&rt), rt.alloc()) {
        Ok(words) => {
            let mut source = StdSource::new(rt.stdin());
            let mut sink = StdSink::new(rt.stdout());
            run(&rt, rt.alloc(), words.as_slice(), &mut source, &mut sink)
        }
        Err(status) => status,
    };
    // Where standard error takes nothing, the number still tells how it ended.
    let _told = tell(&rt, status);
    ExitCode::from(status.number())
}

// A run from a cluster of which no node is up.
fn run<R: Threads + Wait + Sync>(
    rt: &R,
    alloc: Global,
    words: &[String],
    source: &mut StdSource,
    sink: &mut StdSink,
) -> Status {
    let Ok(mut world) = World::new(alloc) else {
        return Status::NoMemory;
    };
    let mut log = RunLog::new(alloc);
    let status = ckpt_run(
        rt, alloc, words, source, sink, &OpenGate, &mut log, &mut world,
    );
    // The program ends here, and gives all memory back at once.
    mem::forget(log);
    mem::forget(world);
    status
}

// One line to standard error for each status but that of a run.
fn tell(rt: &HostRuntime, status: Status) -> io::Result<()> {
    match status {
        Status::Ran => Ok(()),
        Status::Usage => eprintln!(rt; "usage: ckptsim run [--steps] | load NUMBER"),
        Status::Script(fault) => { eprintln!(rt; "line {}: {}", fault.line, fault.reason.word()) }
        Status::ReadFault => eprintln!(rt; "read fault"),
        Status::WriteFault => eprintln!(rt; "write fault"),
        Status::NoMemory => eprintln!(rt; "no memory"),
    }
}
