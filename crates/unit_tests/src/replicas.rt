//! A replica and a node where memory is there: an update that is staged and committed, a snapshot that is pulled from one
//! replica and installed in another, a node that gets a replica, and a copy of each.
ghost use Rattle.std.specs.Prelude.{◌≡◌, true};
ghost use Rattle.node_core.specs.Fitting.{TakesSnapshot};
ghost use Rattle.stage_slot.specs.Slots.{IsOwnedBy};

use crate::cluster::{ATTRIBUTES, open_as};
use crate::rows::{holds, met};
use ckpt_types::{
    ActorName, Answer, Bytes, CallId, CreationAttributes, IoElement, IoVector, Sections,
    SharedUpdate, Update, WR_ALL_REPLICAS,
};
use cluster_record::Record;
use node_core::{Lent, Node};
use node_msgs::{NodeChange, Reply, Request};
use replica::Replica;
use snap_copy::Snap;
use stage_slot::Slot;
use std::alloc::{AllocError, Global};
use std::process::Abort;
use weak_marks::Marks;

const ONE: CreationAttributes = CreationAttributes {
    creation_flags: WR_ALL_REPLICAS,
    checkpoint_size: 8,
    retention_duration: 0,
    max_sections: 1,
    max_section_size: 8,
    max_section_id_size: 8,
};

const FIRST: CallId = CallId {
    actor: ActorName::Client(0),
    number: 3,
};

/// A write of these bytes at the front of the default section.
fn write(alloc: Global, bytes: &[u8]) -> Result<SharedUpdate, AllocError> {
    let element = IoElement {
        id: Bytes::default(),
        offset: 0,
        bytes: Bytes::from_slice(alloc, bytes)?,
    };
    SharedUpdate::new(alloc, Update::Write(IoVector::one(element)))
}

/// Whether it is a write of these bytes alone.
fn writes(update: &Update, bytes: &[u8]) -> bool {
    let Update::Write(elements) = update else {
        return false;
    };
    let elements = elements.as_slice();
    elements.len() == 1 && elements[0].bytes.as_slice() == bytes
}

/// Stages a write in the slot, as that of the call on a replica with seven updates. Whether it is staged.
fn fills(slot: &mut Slot, alloc: Global) -> Result<bool, AllocError> {
    let update = write(alloc, b"ab")?;
    Ok(slot.stage(FIRST, update, 5, 7).is_ok())
}

/// Whether the slot has that write staged, with all that goes with it.
fn is_filled(slot: &Slot) -> bool {
    let Some(staged) = slot.kept() else {
        return false;
    };
    if staged.owner != FIRST || staged.moment != 5 || staged.count != 7 {
        return false;
    }
    writes(staged.update.value(), b"ab")
}

/// Whether a copy of the slot has the same staged.
fn slot_is_copied(alloc: Global, slot: &Slot) -> Result<bool, AllocError> {
    let copy = slot.copy(alloc)?;
    Ok(is_filled(&copy))
}

fn slot_is_filled(rt: &impl Abort, alloc: Global, slot: &mut Slot) {
    met(rt, 1, fills(slot, alloc));
    met(rt, 2, slot_is_copied(alloc, slot));
}

#[test]
fn a_copy_of_a_slot_has_what_is_staged_there(rt: HostRuntime) {
    let mut slot = Slot::empty();
    slot_is_filled(&rt, rt.alloc(), &mut slot);
}

/// Begins a weak write of the call, on a replica of the third generation. Whether it is under way.
fn begins(marks: &mut Marks, alloc: Global) -> Result<bool, AllocError> {
    let update = write(alloc, b"ab")?;
    Ok(marks.begin(FIRST, update, 5, 3).is_ok())
}

/// Whether these are the marks of that write, with its element not done.
fn is_under_way(marks: &Marks) -> bool {
    let Some(marked) = marks.kept() else {
        return false;
    };
    if marked.call != FIRST || marked.moment != 5 || marked.generation != 3 {
        return false;
    }
    marked.left() && writes(marked.update.value(), b"ab")
}

/// Whether a copy of the marks is of the same write.
fn marks_are_copied(alloc: Global, marks: &Marks) -> Result<bool, AllocError> {
    let copy = marks.copy(alloc)?;
    Ok(is_under_way(&copy))
}

fn marks_are_made(rt: &impl Abort, alloc: Global, marks: &mut Marks) {
    met(rt, 1, begins(marks, alloc));
    met(rt, 2, marks_are_copied(alloc, marks));
}

#[test]
fn a_copy_of_marks_is_of_the_same_write(rt: HostRuntime) {
    let mut marks = Marks::empty();
    marks_are_made(&rt, rt.alloc(), &mut marks);
}

/// Stages a write, where one update more can be counted. Whether it is staged.
fn stages(replica: &mut Replica, alloc: Global, bytes: &[u8]) -> Result<bool, AllocError> {
    if replica.count() == u64::MAX {
        return Ok(false);
    }
    if replica.marks().kept().is_some() {
        return Ok(false);
    }
    let update = write(alloc, bytes)?;
    Ok(replica.stage(FIRST, update, 5).is_ok())
}

/// Whether the call owns the slot.
fn owns(replica: &Replica, by: CallId) -> bool
    ensures { result ≡ true → IsOwnedBy by replica.now.slot }
{
    match replica.slot().kept() {
        None => false,
        Some(staged) => staged.owner == by,
    }
}

/// Commits what the call has staged, where it has.
fn commits(replica: &mut Replica, by: CallId) -> bool {
    if !owns(replica, by) {
        return false;
    }
    replica.commit(by);
    true
}

/// Whether the replica has one section, with these bytes.
fn has_bytes(replica: &Replica, bytes: &[u8]) -> bool {
    let store = replica.store();
    if store.len() != 1 {
        return false;
    }
    store.at(0).bytes == bytes
}

/// Of two equal replicas one commits what is staged in both, which stays staged in the other.
fn go_apart(rt: &impl Abort, replica: &Replica, copy: &mut Replica) {
    holds(rt, 2, commits(copy, FIRST));
    holds(rt, 3, has_bytes(copy, b"ab"));
    holds(rt, 4, owns(replica, FIRST));
    holds(rt, 5, has_bytes(replica, b""));
}

fn copy_goes_apart(rt: &impl Abort, alloc: Global, replica: &Replica) -> Result<(), AllocError> {
    let mut copy = replica.copy(alloc)?;
    go_apart(rt, replica, &mut copy);
    Ok(())
}

/// A replica stages a write, which a copy of it commits.
fn stage_first(rt: &impl Abort, alloc: Global, replica: &mut Replica) -> Result<(), AllocError> {
    met(rt, 1, stages(replica, alloc, b"ab"));
    copy_goes_apart(rt, alloc, replica)
}

#[test]
fn a_copy_of_a_replica_goes_its_own_way(rt: HostRuntime) -> Result<(), AllocError> {
    let mut replica = Replica::reserve(rt.alloc(), 1, &ONE, 2)?;
    stage_first(&rt, rt.alloc(), &mut replica)
}

/// Pulls the replica into the snapshot, where both are of the same attributes. Whether it is done.
fn pulls(replica: &Replica, snap: &mut Snap) -> bool {
    if snap.attributes() != replica.store().attributes() {
        return false;
    }
    replica.pull(snap).is_ok()
}

/// Whether the replica can take over the snapshot.
fn can_take(replica: &Replica, snap: &Snap) -> bool
    ensures { result ≡ true → TakesSnapshot snap.now replica.now }
{
    if replica.slot().kept().is_some() {
        return false;
    }
    if replica.marks().kept().is_some() {
        return false;
    }
    snap.attributes() == replica.store().attributes()
}

/// Installs the snapshot. Whether it is done; nothing where the replica can't take it over.
fn installs(replica: &mut Replica, snap: &Snap) -> Option<bool> {
    if !can_take(replica, snap) {
        return None;
    }
    Some(replica.install(snap).is_ok())
}

/// A replica is pulled after its first update.
fn update_and_pull(rt: &impl Abort, alloc: Global, replica: &mut Replica, snap: &mut Snap) {
    met(rt, 1, stages(replica, alloc, b"ab"));
    holds(rt, 2, has_bytes(replica, b""));
    holds(rt, 3, commits(replica, FIRST));
    holds(rt, 4, has_bytes(replica, b"ab"));
    holds(rt, 5, pulls(replica, snap));
}

fn give(rt: &impl Abort, alloc: Global, snap: &mut Snap) -> Result<(), AllocError> {
    let mut replica = Replica::reserve(alloc, 1, &ONE, 2)?;
    update_and_pull(rt, alloc, &mut replica, snap);
    Ok(())
}

/// A replica takes what the snapshot has, and takes it once: then it is no older any more.
fn take_once(rt: &impl Abort, replica: &mut Replica, snap: &Snap) {
    holds(rt, 6, installs(replica, snap) == Some(true));
    holds(rt, 7, has_bytes(replica, b"ab"));
    holds(rt, 8, replica.count() == 1);
    holds(rt, 9, installs(replica, snap) == Some(false));
}

/// A replica without an update takes over the snapshot.
fn take_over(rt: &impl Abort, alloc: Global, snap: &Snap) -> Result<(), AllocError> {
    let mut replica = Replica::reserve(alloc, 1, &ONE, 7)?;
    take_once(rt, &mut replica, snap);
    Ok(())
}

/// A copy of the snapshot brings what that does.
fn copy_is_taken_over(rt: &impl Abort, alloc: Global, snap: &Snap) -> Result<(), AllocError> {
    let copy = snap.copy(alloc)?;
    take_over(rt, alloc, &copy)
}

/// A snapshot is filled, and brings what it has twice.
fn brings(rt: &impl Abort, alloc: Global, snap: &mut Snap) -> Result<(), AllocError> {
    give(rt, alloc, snap)?;
    take_over(rt, alloc, snap)?;
    copy_is_taken_over(rt, alloc, snap)
}

#[test]
fn a_snapshot_brings_a_replica_what_another_had(rt: HostRuntime) -> Result<(), AllocError> {
    let mut snap = Snap::reserve(rt.alloc(), &ONE)?;
    brings(&rt, rt.alloc(), &mut snap)
}

/// Adds a replica of the first checkpoint, of the first generation. Whether that may come, and is done.
fn adds(node: &mut Node, alloc: Global, seen: &Record, lent: &mut Lent) -> bool {
    let change = NodeChange::Add(1, 1);
    if !node.change_fits(seen, &change, lent) {
        return false;
    }
    node.change(alloc, seen, &change, lent).is_ok()
}

/// Reserves a replica of the first checkpoint. Whether that may come, and is done.
fn reserves(node: &mut Node, alloc: Global, seen: &Record, lent: &mut Lent) -> bool {
    let request = Request::Reserve(1);
    if !node.fits(seen, &request, lent) {
        return false;
    }
    let reply = node.serve(alloc, seen, &request, lent);
    matches!(reply, Reply::Done(Answer::Nothing))
}

/// How a node gets a replica.
#[derive(Clone, Copy)]
enum Way {
    Added,
    Reserved,
}

fn takes_so(way: Way, node: &mut Node, alloc: Global, seen: &Record, lent: &mut Lent) -> bool {
    match way {
        Way::Added => adds(node, alloc, seen, lent),
        Way::Reserved => reserves(node, alloc, seen, lent),
    }
}

/// Whether the node gets a replica of the first checkpoint, with nothing lent.
fn takes(way: Way, node: &mut Node, alloc: Global, seen: &Record) -> bool {
    let mut lent = Lent::nothing();
    takes_so(way, node, alloc, seen, &mut lent)
}

/// Whether the node gets one, and has it then.
fn has_taken(way: Way, node: &mut Node, alloc: Global, seen: &Record) -> bool {
    if !takes(way, node, alloc, seen) {
        return false;
    }
    node.replica(1).is_some()
}

/// Whether a node of that number gets a replica so.
fn one_takes(number: u8, way: Way, alloc: Global, seen: &Record) -> Result<bool, AllocError> {
    let mut node = Node::new(alloc, number)?;
    Ok(has_taken(way, &mut node, alloc, seen))
}

/// n0 adds a replica of what the record makes, and n1 reserves one.
fn nodes_take(rt: &impl Abort, alloc: Global, seen: &mut Record) -> Result<(), AllocError> {
    open_as(seen, alloc, 3, b"a", Some(ATTRIBUTES))?;
    met(rt, 1, one_takes(0, Way::Added, alloc, seen));
    met(rt, 2, one_takes(1, Way::Reserved, alloc, seen));
    Ok(())
}

#[test]
fn a_node_makes_room_for_what_the_record_has(rt: HostRuntime) -> Result<(), AllocError> {
    let mut seen = Record::new(rt.alloc(), 2)?;
    nodes_take(&rt, rt.alloc(), &mut seen)
}

/// Whether the node has a replica of the first checkpoint, as it was made.
fn has_opened(node: &Node) -> bool {
    match node.replica(1) {
        None => false,
        Some(replica) => has_bytes(replica, b""),
    }
}

/// Whether a copy of the node has its replica.
fn node_is_copied(alloc: Global, node: &Node) -> Result<bool, AllocError> {
    let copy = node.copy(alloc)?;
    Ok(has_opened(&copy))
}

fn node_has_one(rt: &impl Abort, alloc: Global, node: &mut Node, seen: &Record) {
    holds(rt, 1, takes(Way::Added, node, alloc, seen));
    met(rt, 2, node_is_copied(alloc, node));
}

/// A node gets a replica of what the record makes.
fn node_takes_one(rt: &impl Abort, alloc: Global, seen: &mut Record) -> Result<(), AllocError> {
    open_as(seen, alloc, 3, b"a", Some(ATTRIBUTES))?;
    let mut node = Node::new(alloc, 0)?;
    node_has_one(rt, alloc, &mut node, seen);
    Ok(())
}

#[test]
fn a_copy_of_a_node_has_its_replica(rt: HostRuntime) -> Result<(), AllocError> {
    let mut seen = Record::new(rt.alloc(), 2)?;
    node_takes_one(&rt, rt.alloc(), &mut seen)
}
