//! The drivers of calls where memory is there: a copy of one goes on where that is.
ghost use Rattle.std.specs.Prelude.{◌<◌};
ghost use Rattle.ckpt_types.specs.Limits.{nodes_max};

use crate::cluster::{ATTRIBUTES, joins, open_as};
use crate::rows::{holds, met};
use ckpt_types::{ActorName, Answer, Bytes, CallId, NodeId, Outcome, Shared};
use cluster_record::{ActiveKind, Record, SyncKind};
use drive_active::ActiveCall;
use drive_join::CopyCall;
use drive_open::{OpenCall, SharedAsk};
use drive_sync::SyncCall;
use drive_update::UpdateCall;
use node_msgs::{Next, Reply, Verb};
use std::alloc::{AllocError, Global};
use std::process::Abort;

const FIRST: CallId = CallId {
    actor: ActorName::Client(3),
    number: 5,
};

// The call with which `open_as` opens for c3.
const MAKER: CallId = CallId {
    actor: ActorName::Client(3),
    number: 2,
};

/// Whether this is asked of the node next.
fn asks(next: Next, node: NodeId, verb: Verb) -> bool {
    match next {
        Next::Serve(at, request) => at == node && request.verb() == verb,
        _ => false,
    }
}

/// Whether an update that has staged on n0 is to stage on n1, in a copy of it.
fn update_goes_on(alloc: Global, seen: &Record) -> Result<bool, AllocError> {
    let mut call = UpdateCall::begin(FIRST, 1);
    call.staged(seen, 1, 0);
    let copy = call.copy(alloc)?;
    Ok(asks(copy.next(seen), 1, Verb::Stage))
}

/// Whether a weak write that has made its marks is to do an element, in a copy of it.
fn weak_write_goes_on(alloc: Global, seen: &Record) -> Result<bool, AllocError> {
    let mut call = ActiveCall::begin(FIRST, 1, ActiveKind::Weak(2));
    if call.take(seen, &Reply::Done(Answer::Nothing)).is_some() {
        return Ok(false);
    }
    let copy = call.copy(alloc)?;
    Ok(asks(copy.next(seen, true), 0, Verb::Element))
}

/// Whether a synchronisation that has pulled is to install on n1, in a copy of it.
fn synchronisation_goes_on(alloc: Global, seen: &Record) -> Result<bool, AllocError> {
    let mut call = SyncCall::begin(FIRST, 1, SyncKind::Synchronize(None));
    if call.take(seen, &Reply::Done(Answer::Pulled(4))).is_some() {
        return Ok(false);
    }
    let copy = call.copy(alloc)?;
    Ok(asks(copy.next(seen), 1, Verb::Install))
}

/// What c3 asks for with a name.
fn ask_for(alloc: Global, name: &[u8]) -> Result<SharedAsk, AllocError> {
    let name = Shared::new(alloc, Bytes::from_slice(alloc, name)?)?;
    let attributes = Shared::new(alloc, Some(ATTRIBUTES))?;
    Ok(SharedAsk {
        name,
        attributes,
        client: 3,
        node: 0,
    })
}

/// Whether an open that is making K2 has its name, and is to reserve on n0.
fn is_making(seen: &Record, call: &OpenCall) -> bool {
    if call.name().as_slice() != b"b".as_slice() {
        return false;
    }
    asks(call.next(seen, true), 0, Verb::Reserve)
}

/// Whether a copy of an open is making what that makes.
fn copy_is_making(alloc: Global, seen: &Record, call: &OpenCall) -> Result<bool, AllocError> {
    let copy = call.copy(alloc)?;
    Ok(is_making(seen, &copy))
}

/// An open is making its checkpoint behind the step that creates it.
fn begins_to_make(rt: &impl Abort, alloc: Global, seen: &Record, call: &mut OpenCall) {
    holds(
        rt,
        4,
        call.take(seen, &Reply::Done(Answer::Nothing)).is_none(),
    );
    met(rt, 5, copy_is_making(alloc, seen, call));
}

fn open_goes_on(rt: &impl Abort, alloc: Global, seen: &mut Record) -> Result<(), AllocError> {
    open_as(seen, alloc, 3, b"b", Some(ATTRIBUTES))?;
    let ask = ask_for(alloc, b"b")?;
    let mut call = OpenCall::begin(MAKER, ask, None);
    begins_to_make(rt, alloc, seen, &mut call);
    Ok(())
}

/// Calls to what the record makes go on, each in a copy.
fn each_goes_on(rt: &impl Abort, alloc: Global, seen: &mut Record) -> Result<(), AllocError> {
    open_as(seen, alloc, 3, b"a", Some(ATTRIBUTES))?;
    seen.finish_create(1);
    met(rt, 1, update_goes_on(alloc, seen));
    met(rt, 2, weak_write_goes_on(alloc, seen));
    met(rt, 3, synchronisation_goes_on(alloc, seen));
    open_goes_on(rt, alloc, seen)
}

/// The copying of a node, whose update has staged nowhere.
fn copying_to(node: NodeId) -> CopyCall<UpdateCall>
    requires { node < nodes_max }
{
    let call = CallId {
        actor: ActorName::Node(node),
        number: 1,
    };
    CopyCall::begin(call, UpdateCall::begin(call, 1))
}

/// Whether a node lacks nothing: its copying is done.
fn lacks_nothing(seen: &Record, node: NodeId) -> bool
    requires { node < nodes_max }
{
    matches!(copying_to(node).next(seen), Next::End(Outcome::Done(_)))
}

/// Whether a copying that has reserved is to stage its update on n0, in a copy of it.
fn copying_goes_on(alloc: Global, seen: &Record) -> Result<bool, AllocError> {
    let mut call = copying_to(5);
    if call.take(seen, &Reply::Done(Answer::Nothing)).is_some() {
        return Ok(false);
    }
    let copy = call.copy(alloc)?;
    Ok(asks(copy.next(seen), 0, Verb::Stage))
}

/// n5 joins behind the making of K1, which it lacks then.
fn copying_begins(rt: &impl Abort, alloc: Global, seen: &mut Record) -> Result<(), AllocError> {
    open_as(seen, alloc, 3, b"a", Some(ATTRIBUTES))?;
    seen.finish_create(1);
    holds(rt, 1, joins(seen, 5, 1) == Some((1, 1)));
    holds(rt, 2, lacks_nothing(seen, 1));
    holds(rt, 3, asks(copying_to(5).next(seen), 5, Verb::Reserve));
    met(rt, 4, copying_goes_on(alloc, seen));
    Ok(())
}

#[test]
fn a_copying_begins_with_what_its_node_lacks(rt: HostRuntime) -> Result<(), AllocError> {
    let mut seen = Record::new(rt.alloc(), 2)?;
    copying_begins(&rt, rt.alloc(), &mut seen)
}

#[test]
fn a_copy_of_a_call_goes_on_where_that_is(rt: HostRuntime) -> Result<(), AllocError> {
    let mut seen = Record::new(rt.alloc(), 2)?;
    each_goes_on(&rt, rt.alloc(), &mut seen)
}
