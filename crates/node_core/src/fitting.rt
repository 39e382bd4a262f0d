//! Whether a request or a change may come to a node.
ghost use Rattle.std.specs.Prelude.{◌≡◌, true, false, None, IsOk, IsSomeAnd, Decides};
ghost use Rattle.cluster_record.specs.Places.{find_key};
ghost use Rattle.stage_slot.specs.Slots.{IsOwnedBy};
ghost use Rattle.weak_marks.specs.Marks.{IsMarkedBy, is_left_of};
ghost use Rattle.replica.specs.Replicas.{outcome_on};
ghost use Rattle.node_core.specs.Changing.{seen_for_change, ChangeFits, LendsInto, TakesLent, TakesStage};
ghost use Rattle.node_core.specs.Fitting.{IsReadyFor, HasCountLeft, CanServe, MayBeMade, RequestFits, TakesSnapshot};
ghost use Rattle.node_core.specs.Nodes.{replica_key};
ghost use Rattle.node_core.specs.Seen.{record_seen};
ghost use Rattle.node_msgs.specs.Requests.{ckpt_of};

use crate::keeping::keeps_to;
use crate::lending::{has_lent, has_room_to_pull};
use crate::lent::Lent;
use crate::replicas::find_at;
use crate::seen::is_complete;
use ckpt_types::{CallId, CkptId, Moment, NodeId, SharedUpdate};
use cluster_record::Record;
use node_msgs::{NodeChange, Request};
use replica::Replica;
use snap_copy::Snap;
use stage_slot::Slot;
use weak_marks::Marks;

/// Whether a request may come to a node of these replicas.
pub(crate) fn fits_in(
    replicas: &[Replica],
    number: NodeId,
    seen: &Record,
    request: &Request,
    lent: &Lent,
) -> bool
    ensures { Decides result (RequestFits (record_seen seen.now (ckpt_of request.now) number) (record { number = number; replicas = replicas.now }) request.now lent.now) }
{
    if let Request::Reserve(ckpt) = request {
        return may_be_made(seen, *ckpt, number);
    }
    if !is_complete(seen, request.ckpt(), number) {
        return true;
    }
    match find_at(replicas, request.ckpt()) {
        None => false,
        Some(replica) => can_serve(replica, request, lent),
    }
}

/// Whether a change may come to a node of these replicas.
pub(crate) fn change_fits_in(
    replicas: &[Replica],
    number: NodeId,
    seen: &Record,
    change: &NodeChange,
    lent: &Lent,
) -> bool
    ensures { Decides result (ChangeFits (seen_for_change seen.now (record { number = number; replicas = replicas.now }) change.now) (record { number = number; replicas = replicas.now }) change.now lent.now) }
{
    match change {
        NodeChange::Add(ckpt, _) => may_add(replicas, seen, *ckpt, number),
        NodeChange::Lend(ckpt) => may_lend(replicas, *ckpt, lent),
        NodeChange::Take(ckpt, _) => may_take(replicas, *ckpt, lent),
        NodeChange::Stage(_, ckpt, moment) => may_stage(replicas, *ckpt, *moment, lent),
        NodeChange::Lead(_, _) | NodeChange::Break(_) => true,
        NodeChange::Drop(_) | NodeChange::Clear => true,
    }
}

// ---- the record

// Whether a replica of a checkpoint may be made: it has an entry, whose attributes passed their check.
fn may_be_made(seen: &Record, ckpt: CkptId, number: NodeId) -> bool
    ensures { Decides result (MayBeMade (record_seen seen.now ckpt number).entry) }
{
    match seen.entry(ckpt) {
        None => false,
        Some(entry) => entry.attributes.check().is_ok(),
    }
}

fn may_add(replicas: &[Replica], seen: &Record, ckpt: CkptId, number: NodeId) -> bool
    ensures { Decides result (MayBeMade (record_seen seen.now ckpt number).entry × (find_key replica_key ckpt replicas.now ≡ None)) }
{
    if !may_be_made(seen, ckpt, number) {
        return false;
    }
    find_at(replicas, ckpt).is_none()
}

// ---- the replica

fn can_serve(replica: &Replica, request: &Request, lent: &Lent) -> bool
    ensures { Decides result (CanServe request.now lent.now replica.now) }
{
    if !is_ready(replica, request) {
        return false;
    }
    if !has_count_left(replica, request) {
        return false;
    }
    has_lent(replica, request, lent)
}

fn is_ready(replica: &Replica, request: &Request) -> bool
    ensures { Decides result (IsReadyFor request.now replica.now) }
{
    match request {
        Request::Claim(_, _, _) | Request::Read(_) | Request::Status(_) => true,
        Request::Iterate(_, _, _) | Request::Next(_, _) => true,
        Request::Stage(_, _, _) => is_unmarked(replica.marks()),
        Request::Apply(_, _) | Request::Mark(_, _) => is_free(replica.slot()),
        Request::Element(call, _) => is_midway(replica.marks(), *call),
        Request::Unmark(call, _) => is_through(replica.marks(), *call),
        Request::Commit(call, _) => owns(replica.slot(), *call),
        Request::Withdraw(call, _) => owns(replica.slot(), *call),
        Request::Pull(_, _) => true,
        Request::Install(_, _) => is_at_rest(replica),
        Request::Reserve(_) => false,
    }
}

fn owns(slot: &Slot, call: CallId) -> bool
    ensures { Decides result (IsOwnedBy call slot.now) }
{
    match slot.kept() {
        None => false,
        Some(staged) => staged.owner == call,
    }
}

// Whether neither a slot nor marks stand.
fn is_at_rest(replica: &Replica) -> bool
    ensures { Decides result ((replica.now.slot ≡ None) × (replica.now.marks ≡ None)) }
{
    if !is_free(replica.slot()) {
        return false;
    }
    is_unmarked(replica.marks())
}

// Whether no marks stand.
fn is_unmarked(marks: &Marks) -> bool
    ensures { Decides result (marks.now ≡ None) }
{
    marks.kept().is_none()
}

// Whether the weak write of a call is under way.
fn marked(marks: &Marks, call: CallId) -> bool
    ensures { Decides result (IsMarkedBy call marks.now) }
{
    match marks.kept() {
        None => false,
        Some(marked) => marked.call == call,
    }
}

// Whether the weak write of a call has an element left.
fn is_midway(marks: &Marks, call: CallId) -> bool
    ensures { Decides result (IsMarkedBy call marks.now × (is_left_of marks.now ≡ true)) }
{
    if !marked(marks, call) {
        return false;
    }
    marks.left()
}

// Whether all elements of the weak write of a call are done.
fn is_through(marks: &Marks, call: CallId) -> bool
    ensures { Decides result (IsMarkedBy call marks.now × (is_left_of marks.now ≡ false)) }
{
    if !marked(marks, call) {
        return false;
    }
    !marks.left()
}

fn has_count_left(replica: &Replica, request: &Request) -> bool
    ensures { Decides result (HasCountLeft request.now replica.now) }
{
    match request {
        Request::Stage(_, _, _) | Request::Apply(_, _) | Request::Mark(_, _) => {
            replica.count() < u64::MAX
        }
        _ => true,
    }
}

fn may_stage(replicas: &[Replica], ckpt: CkptId, moment: Moment, lent: &Lent) -> bool
    ensures { Decides result (IsSomeAnd (find_key replica_key ckpt replicas.now) (TakesStage lent.now moment)) }
{
    match find_at(replicas, ckpt) {
        None => false,
        Some(replica) => takes_stage(replica, moment, lent),
    }
}

fn takes_stage(replica: &Replica, moment: Moment, lent: &Lent) -> bool
    ensures { Decides result (TakesStage lent.now moment replica.now) }
{
    if !is_free(replica.slot()) {
        return false;
    }
    if !is_unmarked(replica.marks()) {
        return false;
    }
    if replica.count() == u64::MAX {
        return false;
    }
    match &lent.update {
        None => false,
        Some(update) => admits(replica, update, moment),
    }
}

fn may_lend(replicas: &[Replica], ckpt: CkptId, lent: &Lent) -> bool
    ensures { Decides result (IsSomeAnd (find_key replica_key ckpt replicas.now) (LendsInto lent.now)) }
{
    match find_at(replicas, ckpt) {
        None => false,
        Some(replica) => lends_into(replica, lent),
    }
}

fn lends_into(replica: &Replica, lent: &Lent) -> bool
    ensures { Decides result (LendsInto lent.now replica.now) }
{
    if !is_unmarked(replica.marks()) {
        return false;
    }
    has_room_to_pull(replica, lent)
}

fn may_take(replicas: &[Replica], ckpt: CkptId, lent: &Lent) -> bool
    ensures { Decides result (IsSomeAnd (find_key replica_key ckpt replicas.now) (TakesLent lent.now)) }
{
    match find_at(replicas, ckpt) {
        None => false,
        Some(replica) => takes_lent(replica, lent),
    }
}

fn takes_lent(replica: &Replica, lent: &Lent) -> bool
    ensures { Decides result (TakesLent lent.now replica.now) }
{
    match &lent.snap {
        None => false,
        Some(snap) => takes_snapshot(replica, snap),
    }
}

fn takes_snapshot(replica: &Replica, snap: &Snap) -> bool
    ensures { Decides result (TakesSnapshot snap.now replica.now) }
{
    if !is_free(replica.slot()) {
        return false;
    }
    if !is_unmarked(replica.marks()) {
        return false;
    }
    keeps_to(snap, replica.store().attributes())
}

fn is_free(slot: &Slot) -> bool
    ensures { Decides result (slot.now ≡ None) }
{
    slot.kept().is_none()
}

fn admits(replica: &Replica, update: &SharedUpdate, moment: Moment) -> bool
    ensures { Decides result (IsOk (outcome_on replica.now update.now moment)) }
{
    let store = replica.store();
    update_rules::check(store.attributes(), store, update.value(), moment).is_ok()
}
