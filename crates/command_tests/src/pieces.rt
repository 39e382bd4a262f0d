//! A script that comes byte by byte, and lines that are taken byte by byte, with a failure at each place.
use crate::played::{ALL, LINES, NONE, SCRIPT, status_of, writes};
use crate::rows::met;
use command_run::Status;
use outside_io::{MemSink, MemSource, Source, SureSource};
use script_lang::{Reason, ScriptFault};
use std::alloc::{AllocError, Global};
use std::process::Abort;
use std::sync::Wait;
use std::thread::Threads;

/// A script at fault in its second line.
const FAULTY: &[u8] = b"nodes 1\nfoo\n";

/// Whether the run of a script that is read byte by byte ends so, with just these bytes written, where this read fails.
fn reads_singly<R: Threads + Wait + Sync>(
    rt: &R,
    alloc: Global,
    script: &[u8],
    read: u64,
    status: Status,
    written: &[u8],
) -> Result<bool, AllocError> {
    let mut source = MemSource::in_pieces(alloc, script, &[read], 1)?;
    writes(rt, alloc, &["run"], &mut source, ALL, status, written)
}

/// Each of so many reads of a script is told where it fails, and nothing is written.
fn each_read_fails<R: Abort + Threads + Wait + Sync>(
    rt: &R,
    alloc: Global,
    script: &[u8],
    reads: u32,
) {
    let failed = Status::ReadFault;
    for read in 0..reads {
        met(
            rt,
            read,
            reads_singly(rt, alloc, script, read as u64, failed, b""),
        );
    }
}

// Each of the 106 bytes, and the end behind them; and one more, which never comes.
#[test]
fn each_read_of_a_script_in_pieces_is_told_where_it_fails(rt: HostRuntime) {
    each_read_fails(&rt, rt.alloc(), SCRIPT, 107);
    met(
        &rt,
        107,
        reads_singly(&rt, rt.alloc(), SCRIPT, 107, Status::Ran, LINES),
    );
}

// The same of the 12 bytes of a script at fault: its fault is told only where it was read to its end.
#[test]
fn a_fault_is_told_only_where_the_script_was_read_to_its_end(rt: HostRuntime) {
    let fault = Status::Script(ScriptFault {
        line: 2,
        reason: Reason::Word,
    });
    each_read_fails(&rt, rt.alloc(), FAULTY, 13);
    met(
        &rt,
        13,
        reads_singly(&rt, rt.alloc(), FAULTY, 13, fault, b""),
    );
}

/// Whether the run of a script whose lines are taken byte by byte ends so, with so many bytes of these lines written, where
/// this write fails.
fn takes_singly<R: Threads + Wait + Sync, S: Source>(
    rt: &R,
    alloc: Global,
    source: &mut S,
    write: u64,
    status: Status,
    count: usize,
) -> Result<bool, AllocError> {
    let mut sink = MemSink::in_pieces(alloc, LINES.len(), &[write], 1)?;
    let ended = status_of(rt, alloc, &["run"], source, &mut sink)?;
    let written = sink.contents();
    Ok(ended == status && written.len() == count && LINES.starts_with(written))
}

/// The same of the script that writes three bytes and reads them back.
fn prints_singly<R: Threads + Wait + Sync>(
    rt: &R,
    alloc: Global,
    write: u64,
    status: Status,
    count: usize,
) -> Result<bool, AllocError> {
    let mut source = SureSource::new(alloc, SCRIPT)?;
    takes_singly(rt, alloc, &mut source, write, status, count)
}

// Each of the 72 bytes; and one more, which never comes.
#[test]
fn each_write_in_pieces_is_told_where_it_fails_and_leaves_what_was_taken(rt: HostRuntime) {
    let alloc = rt.alloc();
    for write in 0..72u32 {
        met(
            &rt,
            write,
            prints_singly(&rt, alloc, write as u64, Status::WriteFault, write as usize),
        );
    }
    met(&rt, 72, prints_singly(&rt, alloc, 72, Status::Ran, 72));
}

/// Whether a script that comes byte by byte prints its lines byte by byte.
fn passes_singly<R: Threads + Wait + Sync>(rt: &R, alloc: Global) -> Result<bool, AllocError> {
    let mut source = MemSource::in_pieces(alloc, SCRIPT, &[], 1)?;
    takes_singly(rt, alloc, &mut source, NONE, Status::Ran, LINES.len())
}

#[test]
fn a_script_in_pieces_prints_what_it_prints_as_a_whole(rt: HostRuntime) {
    met(&rt, 1, passes_singly(&rt, rt.alloc()));
}
