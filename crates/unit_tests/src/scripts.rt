//! A script with each form of line is read, printed and read again, each reason is told once, and the limits hold that
//! want a long script. What is read of every other script stands in ScriptRows of script_lang.
use crate::rows::{holds, met};
use ckpt_types::{Bytes, SCRIPT_BYTES_MAX};
use script_lang::{ParseError, parse, print};
use std::alloc::{AllocError, Global};

/// Each form of line that is built, in mixed spelling.
const SCRIPT: &str = "\
#

nodes 8
client c9 n7 A.0.9 both
#
client c2 n0 B.2.2 open
begin client c3 n1 B.2.2 sync
open c7 h1 x 1 9223372036854775807
open c0 h0 'ck 7 end 1 16 0 1 16 8
create c0 h0 'a 5 x4A
create c0 h1 gen 9223372036854775807 'b
at 7
#
at 7
delete c1 h0 'a
expire c0 h0 'a 9223372036854775807
over c0 h0 'a x
over c0 h0 x '~
write c0 h0 'a 5 x4aBcDE

write c0 h0 'a 0 'b x 1 xFF
read c0 h0 x61 0 9
read c0 h0 'a 0 1 x 2 3
status c9 h8
iter c0 i1 h2 3 9223372036854775807
next c0 i1
enditer c0 i1
close c9 h8
unlink c0 'a

retain c1 h2 -1
finalize c0
active c9 h8
sync c9 h8 9223372036854775807
begin sync c9 h8 0
openasync c7 h1 18446744073709551615 '~ 7
begin openasync c7 h2 0 x 2 1 16 9223372036854775807 1 16 8
syncasync c7 h1 5

dispatch c7 4294967295
begin close c9 h8
step c9 1000000
#
finish c9
step c9.70 2
finish n7

show K9999
pull K9
put K9 n7
propagate K80
fail n6
join n6
begin create c0 h0 'a 9223372036854775807 'b
begin write c0 h0 'a 0 'b x 1 xFF
";

/// Its one spelling.
const SPELLING: &str = "\
nodes 8
client c9 n7 A.0.9 both
client c2 n0 B.2.2 open
begin client c3 n1 B.2.2 sync
open c7 h1 x 1 end
open c0 h0 x636b 7 end 1 16 0 1 16 8
create c0 h0 x61 5 x4a
create c0 h1 gen end x62
at 7
at 7
delete c1 h0 x61
expire c0 h0 x61 end
over c0 h0 x61 x
over c0 h0 x x7e
write c0 h0 x61 5 x4abcde
write c0 h0 x61 0 x62 x 1 xff
read c0 h0 x61 0 9
read c0 h0 x61 0 1 x 2 3
status c9 h8
iter c0 i1 h2 3 end
next c0 i1
enditer c0 i1
close c9 h8
unlink c0 x61
retain c1 h2 -1
finalize c0
active c9 h8
sync c9 h8 end
begin sync c9 h8 0
openasync c7 h1 18446744073709551615 x7e 7
begin openasync c7 h2 0 x 2 1 16 end 1 16 8
syncasync c7 h1 5
dispatch c7 4294967295
begin close c9 h8
step c9 1000000
finish c9
step c9.70 2
finish n7
show K9999
pull K9
put K9 n7
propagate K80
fail n6
join n6
begin create c0 h0 x61 end x62
begin write c0 h0 x61 0 x62 x 1 xff
";

/// The one spelling of a script.
fn spelled(alloc: Global, script: &[u8]) -> Result<Bytes, ParseError> {
    match parse(alloc, script) {
        Ok(lines) => Ok(print(alloc, &lines)?),
        Err(error) => Err(error),
    }
}

/// Whether a text is a script of that spelling, and there is memory for it.
fn is_spelled(alloc: Global, text: &str) -> bool {
    match spelled(alloc, text.as_bytes()) {
        Ok(found) => found.as_slice() == SPELLING.as_bytes(),
        Err(_refused) => false,
    }
}

#[test]
fn each_form_is_read_and_printed_and_read_again(rt: HostRuntime) {
    holds(&rt, 1, is_spelled(rt.alloc(), SCRIPT));
    holds(&rt, 2, is_spelled(rt.alloc(), SPELLING));
}

/// Adds a text to a script, so many times.
fn add(script: &mut Vec<u8>, text: &str, count: usize) -> Result<(), AllocError> {
    for _ in 0..count {
        script.extend_from_slice(text.as_bytes())?;
    }
    Ok(())
}

/// How many lines a script says.
fn lines_in(alloc: Global, script: &[u8]) -> Result<usize, ParseError> {
    match parse(alloc, script) {
        Ok(lines) => Ok(lines.as_slice().len()),
        Err(error) => Err(error),
    }
}

/// What is told of a script: how many lines it says, or its first fault.
fn told(alloc: Global, script: &[u8]) -> Result<String, AllocError> {
    match lines_in(alloc, script) {
        Ok(count) => format!(in alloc; "ok {count}"),
        Err(ParseError::Fault(fault)) => {
            let reason = fault.reason.word();
            format!(in alloc; "{} {reason}", fault.line)
        }
        Err(ParseError::NoMemory) => Err(AllocError),
    }
}

/// Whether this is told of a script.
fn is_told(alloc: Global, script: &[u8], want: &str) -> Result<bool, AllocError> {
    let told = told(alloc, script)?;
    Ok(told.as_str() == want)
}

/// Whether this is told of a script that goes on with a text so many times.
fn goes_on(
    alloc: Global,
    script: &mut Vec<u8>,
    text: &str,
    count: usize,
    want: &str,
) -> Result<bool, AllocError> {
    add(script, text, count)?;
    is_told(alloc, script, want)
}

/// Whether this is told of a script of one node that goes on with a text so many times.
fn is_told_of_many(
    alloc: Global,
    text: &str,
    count: usize,
    want: &str,
) -> Result<bool, AllocError> {
    let mut script = Vec::from_slice(alloc, b"nodes 1\n")?;
    goes_on(alloc, &mut script, text, count, want)
}

#[test]
fn each_reason_is_told_of_its_line(rt: HostRuntime) {
    let alloc = rt.alloc();
    met(&rt, 1, is_told_of_many(alloc, "foo", 1, "2 word"));
    met(
        &rt,
        2,
        is_told_of_many(alloc, "client c0 n0 B.2", 1, "2 count"),
    );
    met(&rt, 3, is_told_of_many(alloc, "step c0 0", 1, "2 number"));
    met(&rt, 4, is_told_of_many(alloc, "unlink c0 ck", 1, "2 bytes"));
    met(&rt, 5, is_told_of_many(alloc, "nodes 1", 1, "2 nodes"));
    met(
        &rt,
        6,
        is_told_of_many(alloc, "at 5\nat 4\n", 1, "3 moment"),
    );
    met(
        &rt,
        7,
        is_told_of_many(alloc, "read c0 h0 x 0 16777217", 1, "2 reads"),
    );
    met(&rt, 8, is_told_of_many(alloc, "show K1\n", 17, "18 shows"));
    met(&rt, 9, is_told_of_many(alloc, "race", 1, "2 not built"));
}

#[test]
fn nodes_fail_beside_checkpoints_of_each_kind(rt: HostRuntime) {
    let alloc = rt.alloc();
    let own = "open c0 h0 'ck 7 end 2 16 0 1 16 8\nfail n1\n";
    let all = "fail n1\nbegin open c0 h0 'ck 7 end 1 16 0 1 16 8\n";
    met(&rt, 1, is_told_of_many(alloc, "fail n0\n", 2, "ok 3"));
    met(&rt, 2, is_told_of_many(alloc, own, 2, "ok 5"));
    met(&rt, 3, is_told_of_many(alloc, all, 2, "ok 5"));
    met(&rt, 4, is_told_of_many(alloc, "fail n8", 1, "2 word"));
    met(&rt, 5, is_told_of_many(alloc, "begin fail n0", 1, "2 word"));
    met(&rt, 6, is_told_of_many(alloc, "fail", 1, "2 count"));
}

#[test]
fn a_script_has_10000_lines_and_262144_bytes_at_most(rt: HostRuntime) {
    let alloc = rt.alloc();
    let read = "read c0 h0 x 0 1\n";
    met(&rt, 1, is_told_of_many(alloc, read, 9_999, "ok 10000"));
    met(&rt, 2, is_told_of_many(alloc, read, 10_000, "10001 lines"));
    met(&rt, 3, is_told_of_many(alloc, "\n", 9_999, "ok 1"));
    met(&rt, 4, is_told_of_many(alloc, "\n", 10_000, "10001 lines"));
    met(&rt, 5, is_told_of_many(alloc, "#\n", 12_000, "10001 lines"));
    met(
        &rt,
        6,
        is_told_of_many(alloc, "#", SCRIPT_BYTES_MAX - 8, "ok 1"),
    );
    met(
        &rt,
        7,
        is_told_of_many(alloc, "#", SCRIPT_BYTES_MAX - 7, "0 length"),
    );
}
