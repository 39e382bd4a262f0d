//! The record of the cluster where memory is there: a client comes and makes a checkpoint, and a copy goes its own way; a
//! node joins, and comes to be complete for what was made before.
ghost use Rattle.std.specs.Prelude.{◌≡◌, IfSome, IsSome, true};
ghost use Rattle.ckpt_types.specs.Attributes.{IsWellFormed};
ghost use Rattle.cluster_record.specs.RecordReady.{CanJoin, CanOpen, CanSetActive};
ghost use Rattle.cluster_record.specs.RecordState.{entry_of};

use crate::rows::{holds, met};
use ckpt_types::{
    ActorName, Bytes, CLIENT_NUMBERS, CallId, CkptId, CreationAttributes, Incarnation, Moment,
    NODES_MAX, NodeId, OpenAsk, WR_ALL_REPLICAS, name_fits,
};
use cluster_record::{OpenAnswer, Record};
use std::alloc::{AllocError, Global};
use std::process::Abort;

pub const ATTRIBUTES: CreationAttributes = CreationAttributes {
    creation_flags: WR_ALL_REPLICAS,
    checkpoint_size: 64,
    retention_duration: 10,
    max_sections: 1,
    max_section_size: 64,
    max_section_id_size: 8,
};

/// Whether the attributes, where they are given, pass their check.
fn pass(attrs: &Option<CreationAttributes>) -> bool
    ensures { result ≡ true → IfSome attrs.now IsWellFormed }
{
    match attrs {
        None => true,
        Some(attrs) => attrs.check().is_ok(),
    }
}

/// Whether a client may ask for this.
fn may_ask(record: &Record, ask: &OpenAsk) -> bool
    ensures { result ≡ true → CanOpen ask.now «record».now }
{
    if usize::from(ask.client) >= CLIENT_NUMBERS || !record.is_up(ask.node) {
        return false;
    }
    if !pass(&ask.attrs) {
        return false;
    }
    name_fits(&ask.name)
}

/// What the client gets, where it may ask and the record has numbers left.
fn answer(record: &mut Record, ask: OpenAsk) -> Option<OpenAnswer> {
    if !may_ask(record, &ask) || !record.numbers_left() {
        return None;
    }
    let call = CallId {
        actor: ActorName::Client(ask.client),
        number: 2,
    };
    Some(record.open(call, ask))
}

/// What a client gets that opens a checkpoint with these attributes on its node, or on n0 where it is not live; where it
/// may ask and the record has numbers left.
pub fn open_as(
    record: &mut Record,
    alloc: Global,
    client: u8,
    name: &[u8],
    attrs: Option<CreationAttributes>,
) -> Result<Option<OpenAnswer>, AllocError> {
    let ask = OpenAsk {
        name: Bytes::from_slice(alloc, name)?,
        attrs,
        client,
        node: record.home_of(client),
    };
    Ok(answer(record, ask))
}

/// Whether the record finds this by a name.
fn finds(
    record: &Record,
    alloc: Global,
    name: &[u8],
    found: Option<CkptId>,
) -> Result<bool, AllocError> {
    let name = Bytes::from_slice(alloc, name)?;
    Ok(record.find(&name) == found)
}

/// Takes a client in, where it may come. Whether it is live then.
fn enters(record: &mut Record, client: u8, node: NodeId, number: u32) -> bool {
    let known = usize::from(client) < CLIENT_NUMBERS;
    if !known || !record.is_up(node) || record.is_live_client(client) {
        return false;
    }
    let call = CallId {
        actor: ActorName::Client(client),
        number,
    };
    record.enter(call, node).is_ok()
}

fn set_moment(record: &mut Record, t: Moment) {
    if t == Moment::MAX {
        return;
    }
    if t < record.now() {
        return;
    }
    record.set_moment(t);
}

/// Whether a client that opens a checkpoint of that name makes it, as the one of this identity.
fn makes(
    record: &mut Record,
    alloc: Global,
    client: u8,
    name: &[u8],
    id: CkptId,
) -> Result<bool, AllocError> {
    let answer = open_as(record, alloc, client, name, Some(ATTRIBUTES))?;
    Ok(answer == Some(OpenAnswer::Made(id)))
}

/// Of two equal records, in which c3 is making the checkpoint `a`, one gets a checkpoint more.
fn make_second(rt: &impl Abort, alloc: Global, record: &Record, copy: &mut Record) {
    met(rt, 3, makes(copy, alloc, 3, b"b", 2));
    holds(rt, 4, copy.now() == 5);
    holds(rt, 5, copy.client(3) == Some((1, 1, 7)));
    met(rt, 6, finds(copy, alloc, b"a", Some(1)));
    met(rt, 7, finds(record, alloc, b"b", None));
}

/// Then c3 leaves that one.
fn leave(rt: &impl Abort, alloc: Global, record: &Record, copy: &mut Record) {
    copy.finish_create(2);
    copy.leave(3);
    met(rt, 8, finds(copy, alloc, b"a", None));
    met(rt, 9, finds(copy, alloc, b"b", Some(2)));
    met(rt, 10, finds(record, alloc, b"a", Some(1)));
}

fn go_apart(rt: &impl Abort, alloc: Global, record: &Record, copy: &mut Record) {
    make_second(rt, alloc, record, copy);
    leave(rt, alloc, record, copy);
}

fn copy_goes_apart(rt: &impl Abort, alloc: Global, record: &Record) -> Result<(), AllocError> {
    let mut copy = record.copy(alloc)?;
    go_apart(rt, alloc, record, &mut copy);
    Ok(())
}

/// A client comes, and makes the first checkpoint.
fn make_first(rt: &impl Abort, alloc: Global, record: &mut Record) -> Result<(), AllocError> {
    holds(rt, 1, enters(record, 3, 1, 7));
    met(rt, 2, makes(record, alloc, 3, b"a", 1));
    set_moment(record, 5);
    copy_goes_apart(rt, alloc, record)
}

#[test]
fn a_copy_goes_its_own_way(rt: HostRuntime) -> Result<(), AllocError> {
    let mut record = Record::new(rt.alloc(), 2)?;
    make_first(&rt, rt.alloc(), &mut record)
}

/// Whether a node may join.
fn may_join(record: &Record, node: NodeId) -> bool
    ensures { result ≡ true → CanJoin node «record».now }
{
    if usize::from(node) >= NODES_MAX || record.is_up(node) {
        return false;
    }
    record.numbers_left()
}

/// A node joins, where it may, and this is the number of its first call then. The incarnation in which it is up, with that
/// number.
pub fn joins(record: &mut Record, node: NodeId, first: u32) -> Option<(Incarnation, u32)> {
    if !may_join(record, node) {
        return None;
    }
    record.join(node, first);
    record.up(node)
}

/// Whether a node may come to be complete for a checkpoint: that is there, and the record has numbers left.
fn may_complete(record: &Record, ckpt: CkptId) -> bool
    ensures { result ≡ true → IsSome (entry_of ckpt «record».now.entries) × CanSetActive (entry_of ckpt «record».now.entries) }
{
    if record.entry(ckpt).is_none() {
        return false;
    }
    record.numbers_left()
}

/// A node comes to be complete for K1, where it may: by node, with which incarnation one is complete then.
fn completes(record: &mut Record, node: NodeId) -> [u32; NODES_MAX] {
    if may_complete(record, 1) {
        record.complete(1, node);
    }
    record.complete_on(1)
}

/// Whether this node is the active of K1, in this generation.
fn leads(record: &Record, node: NodeId, generation: u64) -> bool {
    match record.entry(1) {
        None => false,
        Some(entry) => entry.active == Some(node) && entry.generation == generation,
    }
}

/// n1 comes to be complete for K1, of which n3 alone has a replica so far; n5, which is not up, does not.
fn complete_one_by_one(rt: &impl Abort, record: &mut Record) {
    holds(rt, 5, leads(record, 3, 1));
    holds(rt, 6, completes(record, 5) == [0, 0, 0, 1, 0, 0, 0, 0]);
    holds(rt, 7, completes(record, 1) == [0, 1, 0, 1, 0, 0, 0, 0]);
    holds(rt, 8, leads(record, 1, 2));
}

/// n3 joins, and a client there makes K1; then n1 joins.
fn join_one_by_one(rt: &impl Abort, alloc: Global, record: &mut Record) {
    holds(rt, 1, joins(record, 3, 1) == Some((1, 1)));
    holds(rt, 2, enters(record, 3, 3, 7));
    met(rt, 3, makes(record, alloc, 3, b"a", 1));
    record.finish_create(1);
    holds(rt, 4, joins(record, 1, 4) == Some((1, 4)));
    complete_one_by_one(rt, record);
}

#[test]
fn a_node_joins_and_is_complete_for_what_was_made_before(
    rt: HostRuntime,
) -> Result<(), AllocError> {
    let mut record = Record::new(rt.alloc(), 0)?;
    join_one_by_one(&rt, rt.alloc(), &mut record);
    Ok(())
}
