//! The asynchronous calls of one client where memory is there: whom a dispatch tells of their ends.
use crate::rows::holds;
use call_dispatch::{AsyncCall, Callbacks, EndedCall, Pending};
use ckpt_types::{
    ActorName, AisError, Answer, AsyncKind, CallId, DISPATCH_ALL, DISPATCH_ONE, Given, Outcome,
};
use std::alloc::{AllocError, Global};
use std::process::Abort;

/// The numbers of the calls whose ends were told, in order.
#[derive(Drop)]
struct Told {
    numbers: Vec<u32>,
}

impl Callbacks for Told {
    ghost called = { λ before call after. Unit {0} };

    fn callback(&mut self, call: &EndedCall) {
        // The test compares what is there, so a number that was not kept shows.
        let _kept = self.numbers.push(call.asked.call.number);
    }
}

fn call_of(number: u32) -> CallId {
    CallId {
        actor: ActorName::Client(3),
        number,
    }
}

/// Begins a call of that number, with its number for its invocation. Whether there is a place for it.
fn begins(pending: &mut Pending, number: u32, kind: AsyncKind) -> bool {
    let call = AsyncCall {
        call: call_of(number),
        kind,
        invocation: u64::from(number),
        handle: 0,
    };
    pending.begin(call).is_ok()
}

/// Whether a dispatch answers so, and tells the ends of these calls in this order.
fn gives(
    alloc: Global,
    pending: &mut Pending,
    flag: u32,
    answer: Result<(u32, u32), AisError>,
    numbers: &[u32],
) -> bool {
    let mut told = Told {
        numbers: Vec::new(alloc),
    };
    let given = match pending.dispatch(flag, &mut told) {
        Ok(Given { given, left }) => Ok((given, left)),
        Err(error) => Err(error),
    };
    given == answer && told.numbers.as_slice() == numbers
}

/// Of two calls that have ended, the one that has ended first is given first, and each in a copy too.
fn gives_each(rt: &impl Abort, alloc: Global, pending: &mut Pending, equal: &mut Pending) {
    holds(rt, 3, gives(alloc, pending, DISPATCH_ONE, Ok((1, 1)), &[6]));
    holds(rt, 4, gives(alloc, pending, DISPATCH_ALL, Ok((1, 0)), &[4]));
    holds(rt, 5, gives(alloc, pending, DISPATCH_ALL, Ok((0, 0)), &[]));
    holds(
        rt,
        6,
        gives(alloc, equal, DISPATCH_ALL, Ok((2, 0)), &[6, 4]),
    );
}

/// Two calls begin and end.
fn ends_each(rt: &impl Abort, alloc: Global, pending: &mut Pending) -> Result<(), AllocError> {
    holds(rt, 1, begins(pending, 4, AsyncKind::Open(1)));
    holds(rt, 2, begins(pending, 6, AsyncKind::Sync));
    pending.finish(call_of(6), None, Outcome::Done(Answer::Nothing));
    pending.finish(call_of(4), Some(9), Outcome::Done(Answer::Nothing));
    let mut equal = pending.copy(alloc)?;
    gives_each(rt, alloc, pending, &mut equal);
    Ok(())
}

#[test]
fn callbacks_come_once_in_the_order_of_the_ends(rt: HostRuntime) -> Result<(), AllocError> {
    let mut pending = Pending::new(rt.alloc())?;
    ends_each(&rt, rt.alloc(), &mut pending)
}
