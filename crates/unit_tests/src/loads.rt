//! A load is generated where memory is there: the least and the greatest, with their first and last lines as printed text;
//! and what is told of a run in few lines.
ghost use Rattle.std.specs.Prelude.{◌≤◌};

use crate::rows::holds;
use ckpt_types::{ActorName, AisError, Bytes, CallId, Cause, Op, Outcome};
use load_script::{LOAD_MAX, generate, turns_in};
use load_summary::summary;
use node_msgs::Details;
use run_labels::{Label, RunLog};
use script_lang::print;
use std::alloc::{AllocError, Global};
use std::process::Abort;

/// How a load of one write and one read begins.
const FRONT: &str = "\
nodes 4
client c0 n0 B.2.2 none
client c1 n1 B.2.2 none
client c2 n2 B.2.2 none
client c3 n3 B.2.2 none
open c0 h0 x616c6c 7 end 1 65536 end 64 1024 8
open c1 h0 x616c6c 3 end
open c2 h0 x616c6c 3 end
open c3 h0 x616c6c 3 end
create c0 h0 x733030 end x
create c0 h0 x733031 end x
";

/// How it ends.
const BACK: &str = "\
create c0 h0 x733331 end x
write c0 h0 x733030 0 x0000000000000000
begin write c0 h0 x733030 0 x7a7a
step c0 6
fail n0
join n0
copy n0
read c1 h0 x733030 0 1024
";

fn printed(alloc: Global, turns: u32) -> Result<Bytes, AllocError>
    requires some { 1 ≤ turns }
    requires few { turns ≤ 4000 }
{
    let script = generate(alloc, turns)?;
    print(alloc, &script)
}

#[test]
fn a_load_of_one_write_and_one_read_has_these_lines(rt: HostRuntime) -> Result<(), AllocError> {
    let text = printed(rt.alloc(), 1)?;
    holds(&rt, 1, text.as_slice().starts_with(FRONT.as_bytes()));
    holds(&rt, 2, text.as_slice().ends_with(BACK.as_bytes()));
    Ok(())
}

#[test]
fn the_greatest_load_has_8046_lines(rt: HostRuntime) -> Result<(), AllocError> {
    let script = generate(rt.alloc(), LOAD_MAX)?;
    holds(&rt, 1, script.as_slice().len() == 8046);
    Ok(())
}

/// The summary of a log with one label: a client's call for a finalize was refused when it began.
fn refused(alloc: Global) -> Result<Bytes, AllocError> {
    let mut log = RunLog::new(alloc);
    log.reserve(1)?;
    log.push(Label::Began {
        call: CallId {
            actor: ActorName::Client(0),
            number: 1,
        },
        op: Op::Finalize,
        end: Some(Outcome::Refused(AisError::TryAgain, Cause::Plain)),
        details: Details::Nothing,
    });
    summary(alloc, &log)
}

#[test]
fn one_refusal_is_told_with_its_code(rt: HostRuntime) -> Result<(), AllocError> {
    let text = refused(rt.alloc())?;
    holds(
        &rt,
        1,
        text.as_slice() == "calls 1\nTRY_AGAIN 1\nsteps 0\n".as_bytes(),
    );
    Ok(())
}

#[test]
fn a_word_from_1_to_4000_says_how_long_a_load_is(rt: HostRuntime) {
    holds(&rt, 1, turns_in("1") == Some(1));
    holds(&rt, 2, turns_in("4000") == Some(4000));
    holds(&rt, 3, turns_in("0").is_none());
    holds(&rt, 4, turns_in("01").is_none());
    holds(&rt, 5, turns_in("4001").is_none());
    holds(&rt, 6, turns_in("+1").is_none());
    holds(&rt, 7, turns_in("").is_none());
}
