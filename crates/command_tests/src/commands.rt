//! What the words ask for.
use crate::played::{ALL, LINES, NONE, SCRIPT, STEPPED_LINES, ends, writes};
use crate::rows::met;
use command_run::Status;
use outside_io::{MemSource, SureSource};
use script_lang::{Reason, ScriptFault};
use std::alloc::{AllocError, Global};
use std::process::Abort;
use std::sync::Wait;
use std::thread::Threads;

/// Whether the script is played with these words, and just these lines are written.
fn prints<R: Threads + Wait + Sync>(
    rt: &R,
    alloc: Global,
    words: &[&str],
    lines: &[u8],
) -> Result<bool, AllocError> {
    let mut source = SureSource::new(alloc, SCRIPT)?;
    writes(rt, alloc, words, &mut source, ALL, Status::Ran, lines)
}

// The lines; and the steps too.
#[test]
fn three_bytes_are_written_and_read_back(rt: HostRuntime) {
    met(&rt, 1, prints(&rt, rt.alloc(), &["run"], LINES));
    met(
        &rt,
        2,
        prints(&rt, rt.alloc(), &["run", "--steps"], STEPPED_LINES),
    );
}

// Another word; a third word; and then the first read.
fn read_nothing<R: Abort + Threads + Wait + Sync>(rt: &R, alloc: Global, source: &mut MemSource) {
    met(
        rt,
        1,
        writes(rt, alloc, &["go"], source, ALL, Status::Usage, b""),
    );
    met(
        rt,
        2,
        writes(
            rt,
            alloc,
            &["run", "--steps", "x"],
            source,
            ALL,
            Status::Usage,
            b"",
        ),
    );
    met(
        rt,
        3,
        writes(rt, alloc, &["run"], source, ALL, Status::ReadFault, b""),
    );
}

// The first read fails, so that none is told as the usage.
#[test]
fn other_words_are_no_command_and_read_nothing(rt: HostRuntime) -> Result<(), AllocError> {
    let mut source = MemSource::new(rt.alloc(), SCRIPT, &[0])?;
    read_nothing(&rt, rt.alloc(), &mut source);
    Ok(())
}

// Line 2 begins with no word of a line.
#[test]
fn a_line_at_fault_is_told_and_nothing_is_written(rt: HostRuntime) {
    let fault = Status::Script(ScriptFault {
        line: 2,
        reason: Reason::Word,
    });
    met(
        &rt,
        1,
        ends(&rt, rt.alloc(), b"nodes 1\nfoo\n", NONE, ALL, fault, b""),
    );
}
