//! Sources and sinks that fail.
use crate::played::{ALL, LINES, NONE, SCRIPT, cuts_off, ends};
use crate::rows::met;
use ckpt_types::SCRIPT_BYTES_MAX;
use command_run::Status;
use outside_io::MemSource;
use script_lang::{Reason, ScriptFault};
use std::alloc::{AllocError, Global};
use std::process::Abort;
use std::sync::Wait;
use std::thread::Threads;

// None; the first; and that at the end.
#[test]
fn a_read_that_fails_is_told_and_nothing_is_written(rt: HostRuntime) {
    let alloc = rt.alloc();
    let failed = Status::ReadFault;
    met(
        &rt,
        1,
        ends(&rt, alloc, SCRIPT, NONE, ALL, Status::Ran, LINES),
    );
    met(&rt, 2, ends(&rt, alloc, SCRIPT, 0, ALL, failed, b""));
    met(&rt, 3, ends(&rt, alloc, SCRIPT, 1, ALL, failed, b""));
}

// A later one; that of one byte more than a script may have; and one behind it, which never comes.
fn fails_late<R: Abort + Threads + Wait + Sync>(rt: &R, alloc: Global, long: &[u8]) {
    let length = Status::Script(ScriptFault {
        line: 0,
        reason: Reason::Length,
    });
    met(rt, 1, ends(rt, alloc, long, 1, ALL, Status::ReadFault, b""));
    met(
        rt,
        2,
        ends(rt, alloc, long, 64, ALL, Status::ReadFault, b""),
    );
    met(rt, 3, ends(rt, alloc, long, 65, ALL, length, b""));
}

#[test]
fn a_later_read_that_fails_is_told(rt: HostRuntime) -> Result<(), AllocError> {
    let comment = repeated(rt.alloc(), b"", b"#", 2 * SCRIPT_BYTES_MAX)?;
    fails_late(&rt, rt.alloc(), comment.as_slice());
    Ok(())
}

// The first; no room; room up to the middle of a line, up to a line's end, for all but a byte, and for just all.
#[test]
fn a_write_that_fails_is_told_and_leaves_the_front_of_the_lines(rt: HostRuntime) {
    let (alloc, failed) = (rt.alloc(), Status::WriteFault);
    met(
        &rt,
        1,
        ends(&rt, alloc, SCRIPT, NONE, (0, 4096), failed, b""),
    );
    met(
        &rt,
        2,
        ends(&rt, alloc, SCRIPT, NONE, (NONE, 0), failed, b""),
    );
    met(
        &rt,
        3,
        ends(&rt, alloc, SCRIPT, NONE, (NONE, 10), failed, &LINES[..10]),
    );
    met(
        &rt,
        4,
        ends(&rt, alloc, SCRIPT, NONE, (NONE, 21), failed, &LINES[..21]),
    );
    met(
        &rt,
        5,
        ends(&rt, alloc, SCRIPT, NONE, (NONE, 71), failed, &LINES[..71]),
    );
    met(
        &rt,
        6,
        ends(&rt, alloc, SCRIPT, NONE, (NONE, 72), Status::Ran, LINES),
    );
}

/// So many lines behind a first one.
fn repeated(alloc: Global, first: &[u8], line: &[u8], count: usize) -> Result<Vec<u8>, AllocError> {
    let mut lines = Vec::from_slice(alloc, first)?;
    for _ in 0..count {
        lines.extend_from_slice(line)?;
    }
    Ok(lines)
}

/// A source of a script that prints a thousand lines.
fn long_source(alloc: Global) -> Result<MemSource, AllocError> {
    let script = repeated(alloc, b"nodes 1\n", b"step c0 1\n", 1000)?;
    MemSource::new(alloc, script.as_slice(), &[])
}

// Whether a script that prints a thousand lines is cut off where this write fails.
fn is_cut<R: Threads + Wait + Sync>(
    rt: &R,
    alloc: Global,
    write: u64,
    lines: &[u8],
) -> Result<bool, AllocError> {
    let mut source = long_source(alloc)?;
    cuts_off(rt, alloc, &mut source, write, lines)
}

// The second, the third and the fourth.
fn cut_each<R: Abort + Threads + Wait + Sync>(rt: &R, alloc: Global, lines: &[u8]) {
    for write in 1..4 {
        met(rt, write, is_cut(rt, alloc, write as u64, lines));
    }
}

#[test]
fn a_later_write_that_fails_leaves_the_front_of_the_lines(
    rt: HostRuntime,
) -> Result<(), AllocError> {
    let lines = repeated(rt.alloc(), b"", b"c0 step IDLE\n", 1000)?;
    cut_each(&rt, rt.alloc(), lines.as_slice());
    Ok(())
}
