//! A node that has come back copies what was made before.
use crate::played::{ALL, NONE, ends};
use crate::rows::met;
use command_run::Status;
use std::alloc::Global;
use std::process::Abort;
use std::sync::Wait;
use std::thread::Threads;

// The active's node fails between the pull and the completion, so the next copying brings what the new active has.
const CHANGED_ACTIVE: &[u8] =
    b"nodes 3\nclient c0 n2 B.2.2 none\nopen c0 h0 'ck 7 end 2 16 0 1 16 8\nwrite c0 h0 x 0 'one\n\
fail n1\njoin n1\nbegin copy n1\nstep n1 2\nfail n0\nfinish n1\ncopy n1\nread c0 h0 x 0 9\nshow K1\n";

const CHANGED_ACTIVE_LINES: &[u8] = b"c0.1 client OK B.2.2\nc0.2 open OK K1\nc0.3 write OK\n\
n1 fail OK\nn1 join OK 2\nn0 fail OK\nn1.1 copy TRY_AGAIN 1 2\nn1.2 copy OK\nc0.4 read OK x\n\
K1 n1 g2 u0 free x VALID end 0 x\nK1 n2* g2 u0 free x VALID end 0 x\n";

// One that is up, and lacks nothing; one that was never up; and joins of both.
const UP_OR_NOT: &[u8] = b"nodes 2\ncopy n1\ncopy n2\njoin n1\nfail n2\njoin n2\n";

const UP_OR_NOT_LINES: &[u8] =
    b"n1.1 copy OK\nn2 copy DOWN\nn1 join LIVE\nn2 fail DOWN\nn2 join OK 1\n";

// The node fails with a slot of its copying on n0, and comes back: the copying is gone all the same.
const CUT_SHORT: &[u8] = b"nodes 2\nclient c0 n0 B.2.2 none\nopen c0 h0 'ck 7 end 1 16 0 1 16 8\n\
fail n1\njoin n1\nbegin copy n1\nstep n1 2\nfail n1\njoin n1\nwrite c0 h0 x 0 'a\ncopy n1\nshow K1\n";

const CUT_SHORT_LINES: &[u8] = b"c0.1 client OK B.2.2\nc0.2 open OK K1\n\
n1 fail OK\nn1 join OK 2\nn1 fail OK\nn1 join OK 3\nc0.3 write OK\nn1.2 copy OK\n\
K1 n0* g1 u3 free x VALID end 1 x61\nK1 n1 g1 u3 free x VALID end 1 x61\n";

// A copying meets the slot of a write; the next one is staged on both nodes when n0 fails.
const BESIDE_A_WRITE: &[u8] =
    b"nodes 3\nclient c0 n2 B.2.2 none\nopen c0 h0 'ck 7 end 1 16 0 1 16 8\nwrite c0 h0 x 0 'old\n\
fail n1\njoin n1\nbegin write c0 h0 x 0 'new\nstep c0 1\ncopy n1\nfinish c0\n\
begin copy n1\nstep n1 4\nfail n0\nfinish n1\nread c0 h0 x 0 16\nshow K1\n";

const BESIDE_A_WRITE_LINES: &[u8] = b"c0.1 client OK B.2.2\nc0.2 open OK K1\nc0.3 write OK\n\
n1 fail OK\nn1 join OK 2\nn1.1 copy TRY_AGAIN c0.4\nc0.4 write OK\nn0 fail OK\nn1.2 copy OK\n\
c0.5 read OK x6e6577\nK1 n1* g3 u3 free x VALID end 3 x6e6577\nK1 n2 g2 u3 free x VALID end 3 x6e6577\n";

/// A script prints just these lines.
fn prints<R: Abort + Threads + Wait + Sync>(
    rt: &R,
    alloc: Global,
    row: u32,
    script: &[u8],
    lines: &[u8],
) {
    met(
        rt,
        row,
        ends(rt, alloc, script, NONE, ALL, Status::Ran, lines),
    );
}

#[test]
fn a_node_copies_what_was_made_before_it_came_back(rt: HostRuntime) {
    prints(&rt, rt.alloc(), 1, CHANGED_ACTIVE, CHANGED_ACTIVE_LINES);
    prints(&rt, rt.alloc(), 2, UP_OR_NOT, UP_OR_NOT_LINES);
    prints(&rt, rt.alloc(), 3, CUT_SHORT, CUT_SHORT_LINES);
    prints(&rt, rt.alloc(), 4, BESIDE_A_WRITE, BESIDE_A_WRITE_LINES);
}
