//! A script is played and printed.
use command_run::{Status, run_command};
use outside_io::{MemSink, MemSource, OpenGate, Sink, Source};
use run_labels::RunLog;
use std::alloc::{AllocError, Global};
use std::string::String;
use std::sync::Wait;
use std::thread::Threads;
use world_core::World;

/// Three bytes are written and read back.
pub const SCRIPT: &[u8] =
    b"nodes 1\nclient c0 n0 B.2.2 none\nopen c0 h0 'ck 7 end 1 16 0 1 16 8\nwrite c0 h0 x 0 'abc\nread c0 h0 x 0 16\n";

/// What it prints.
pub const LINES: &[u8] =
    b"c0.1 client OK B.2.2\nc0.2 open OK K1\nc0.3 write OK\nc0.4 read OK x616263\n";

/// What it prints with its steps.
pub const STEPPED_LINES: &[u8] = b"+ c0.1 begin client\n+ c0.1 enter n0 ok\nc0.1 client OK B.2.2\n\
+ c0.2 begin open\n+ c0.2 create K1 ok\n+ c0.2 reserve K1 n0 ok\n+ c0.2 finish K1 ok\nc0.2 open OK K1\n\
+ c0.3 begin write\n+ c0.3 stage K1 n0 ok\n+ c0.3 commit K1 n0 ok\nc0.3 write OK\n\
+ c0.4 begin read\n+ c0.4 read K1 n0 ok\nc0.4 read OK x616263\n";

/// A read or a write that never comes, of those that are counted from 0.
pub const NONE: u64 = 1_000_000;

/// No write fails, and there is room for all lines.
pub const ALL: (u64, usize) = (NONE, 4096);

/// The words, as a command takes them.
pub fn owned(alloc: Global, words: &[&str]) -> Result<Vec<String>, AllocError> {
    let mut owned = Vec::new(alloc);
    for word in words {
        owned.push(String::from_str(alloc, word)?)?;
    }
    Ok(owned)
}

/// How the run of these words ends, on a cluster of which no node is up.
pub fn status_of<R: Threads + Wait + Sync, S: Source, K: Sink>(
    rt: &R,
    alloc: Global,
    words: &[&str],
    source: &mut S,
    sink: &mut K,
) -> Result<Status, AllocError> {
    let owned = owned(alloc, words)?;
    ended(rt, alloc, owned.as_slice(), source, sink)
}

// The same of the words that are there.
fn ended<R: Threads + Wait + Sync, S: Source, K: Sink>(
    rt: &R,
    alloc: Global,
    words: &[String],
    source: &mut S,
    sink: &mut K,
) -> Result<Status, AllocError> {
    let mut world = World::new(alloc)?;
    let mut log = RunLog::new(alloc);
    Ok(run_command(
        rt, alloc, words, source, sink, &OpenGate, &mut log, &mut world,
    ))
}

/// Whether the run of these words ends so, with just these bytes written, where this write fails and there is so much
/// room.
pub fn writes<R: Threads + Wait + Sync, S: Source>(
    rt: &R,
    alloc: Global,
    words: &[&str],
    source: &mut S,
    (write, room): (u64, usize),
    status: Status,
    written: &[u8],
) -> Result<bool, AllocError> {
    let mut sink = MemSink::new(alloc, room, &[write])?;
    let ended = status_of(rt, alloc, words, source, &mut sink)?;
    Ok(ended == status && sink.contents() == written)
}

/// Whether the run of a script ends so, with just these bytes written, where this read and this write fail and there is
/// so much room.
pub fn ends<R: Threads + Wait + Sync>(
    rt: &R,
    alloc: Global,
    script: &[u8],
    read: u64,
    (write, room): (u64, usize),
    status: Status,
    written: &[u8],
) -> Result<bool, AllocError> {
    let mut source = MemSource::new(alloc, script, &[read])?;
    writes(
        rt,
        alloc,
        &["run"],
        &mut source,
        (write, room),
        status,
        written,
    )
}

/// Whether a write that fails is told, and a front of these lines is written before it.
pub fn cuts_off<R: Threads + Wait + Sync, S: Source>(
    rt: &R,
    alloc: Global,
    source: &mut S,
    write: u64,
    lines: &[u8],
) -> Result<bool, AllocError> {
    let mut sink = MemSink::new(alloc, lines.len(), &[write])?;
    let ended = status_of(rt, alloc, &["run"], source, &mut sink)?;
    let written = sink.contents();
    let part = 0 < written.len() && written.len() < lines.len();
    Ok(ended == Status::WriteFault && part && lines.starts_with(written))
}
