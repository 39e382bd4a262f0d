//! How a call of a seat begins.
ghost use Rattle.std.specs.Prelude.{◌≡◌, ◌-◌, ◌<◌, ◌++◌, ◌∷◌, [], None, Some, IfOk, IsSome, OnOk, replicate};
ghost use Rattle.ckpt_types.specs.Asks.{asked, IsBuilt};
ghost use Rattle.ckpt_types.specs.Limits.{client_numbers};
ghost use Rattle.ckpt_types.specs.OpWord.{word_of_op};
ghost use Rattle.ckpt_types.specs.declared.identities.ActorName.TheVariants.{Client};
ghost use Rattle.ckpt_machine.specs.Driving.{driver_start};
ghost use Rattle.ckpt_machine.specs.Due.{kept_at_beginning};
ghost use Rattle.client_calls.specs.HandBegun.{IsHandBegun};
ghost use Rattle.client_calls.specs.Names.{IsClientOf};
ghost use Rattle.client_calls.specs.TableState.{begun_with};
ghost use Rattle.node_msgs.specs.declared.details.Details.TheVariants as beside;
ghost use Rattle.run_labels.specs.declared.labels.Label.TheVariants as labels;
ghost use Rattle.client_seats.specs.Begun.{began_label, call_next, copies_for, due_at_beginning, handle_of, is_busy_on, Begins, BeginsCall, IsFree, IsHeld, SaysBusy};
ghost use Rattle.client_seats.specs.Racing.{MayRace};
ghost use Rattle.client_seats.specs.Seats.{with_label, HasDrawn, IsReady};

use crate::held::{SeatCall, clear, take_place};
use crate::seat::ClientSeat;
use ckpt_types::{ActorName, CallId, NODES_MAX, NodeId, Op, Outcome};
use client_calls::{InHand, begin_end, begin_hand, rooms_of, said};
use client_handles::HandleView;
use cluster_record::Record;
use node_msgs::Details;
use run_labels::{Label, OpWord, Said};
use shared_nodes::Work;
use snap_copy::Snap;
use std::alloc::{AllocError, Global};

impl ClientSeat {
    /// A call begins, over the record that is lent: it answers at once, or is in hand from then on, and one label tells its
    /// beginning. Where a call of its client was in hand before, and the node of that is up, the call does not begin, and
    /// a word tells that its client is busy. A call in hand whose client's node is not up is dropped.
    pub fn begin(
        &mut self,
        alloc: Global,
        seen: &Record,
        work: Work,
        ticket: u64,
    ) -> Option<Outcome>
        requires drawn { HasDrawn self.old ticket }
        requires call { 0 < self.old.calls }
        requires client { self.old.client < client_numbers }
        requires free { IsFree seen.now self.old }
        requires may { MayRace (asked work.op) }
        requires built { IsBuilt work.op }
        ensures ready { IsReady self.new }
        ensures begins { Begins seen.now work ticket self.old self.new result }
    {
        if self.is_busy(seen) {
            return self.say_busy(work, ticket);
        }
        self.begin_call(alloc, seen, work, ticket)
    }

    // Whether its client had a call in hand before, whose node is up.
    fn is_busy(&self, seen: &Record) -> bool
        ensures { result ≡ is_busy_on seen.now self.now.busy }
    {
        match self.busy {
            None => false,
            Some(node) => seen.is_up(node),
        }
    }

    // A word tells that its client is busy, and the call does not begin.
    fn say_busy(&mut self, work: Work, ticket: u64) -> Option<Outcome>
        requires drawn { HasDrawn self.old ticket }
        requires call { 0 < self.old.calls }
        ensures ready { IsReady self.new }
        ensures busy { SaysBusy work ticket self.old self.new result }
    {
        clear(&mut self.call);
        self.calls -= 1;
        self.note(ticket, said(self.client, word_of(work), Said::Busy));
        Some(Outcome::Busy)
    }

    // The call begins, and answers at once or goes on.
    fn begin_call(
        &mut self,
        alloc: Global,
        seen: &Record,
        work: Work,
        ticket: u64,
    ) -> Option<Outcome>
        requires drawn { HasDrawn self.old ticket }
        requires call { 0 < self.old.calls }
        requires client { self.old.client < client_numbers }
        requires may { MayRace (asked work.op) }
        requires built { IsBuilt work.op }
        ensures ready { IsReady self.new }
        ensures begins { BeginsCall seen.now work ticket self.old self.new result }
    {
        let call = self.call_next();
        let handle = self.table.handle_asked(work.op());
        let live = seen.is_live_client(self.client);
        match begin_end(live, &handle, work.op(), &self.table) {
            Some(end) => self.begin_ended(call, work, &handle, end, ticket),
            None => self.begin_in_hand(alloc, seen, call, work, &handle, ticket),
        }
    }

    // The next call of its client.
    fn call_next(&self) -> CallId
        ensures { result ≡ call_next self.now }
    {
        CallId {
            actor: ActorName::Client(self.client),
            number: self.table.number(),
        }
    }

    // The call is answered by its beginning.
    fn begin_ended(
        &mut self,
        call: CallId,
        work: Work,
        handle: &Option<HandleView>,
        end: Outcome,
        ticket: u64,
    ) -> Option<Outcome>
        requires drawn { HasDrawn self.old ticket }
        requires call { 0 < self.old.calls }
        requires next { call ≡ call_next self.old }
        requires handle { handle.now ≡ handle_of self.old work.op }
        requires may { MayRace (asked work.op) }
        ensures ready { IsReady self.new }
        ensures end { result ≡ Some end }
        ensures new { self.new ≡ record self.old { table = begun_with (Some end) (call_next self.old) work.op (handle_of self.old work.op) self.old.table; calls = self.old.calls - 1; call = None; trail = with_label ticket (began_label self.old work.op (Some end)) self.old.trail } }
    {
        let op = work.into_op();
        self.table.begin(call, &op, handle, &Some(end));
        self.calls -= 1;
        clear(&mut self.call);
        self.note(ticket, began(call, op, Some(end)));
        Some(end)
    }

    // The call goes on; where the memory for that is refused, it is answered so.
    fn begin_in_hand(
        &mut self,
        alloc: Global,
        seen: &Record,
        call: CallId,
        work: Work,
        handle: &Option<HandleView>,
        ticket: u64,
    ) -> Option<Outcome>
        requires drawn { HasDrawn self.old ticket }
        requires call { 0 < self.old.calls }
        requires client { self.old.client < client_numbers }
        requires next { call ≡ call_next self.old }
        requires handle { handle.now ≡ handle_of self.old work.op }
        requires goes_on { due_at_beginning seen.now self.old work.op ≡ None }
        requires may { MayRace (asked work.op) }
        requires built { IsBuilt work.op }
        ensures ready { IsReady self.new }
        ensures begins { BeginsCall seen.now work ticket self.old self.new result }
    {
        let Ok(taken) = take_up(alloc, seen, call, work.op(), handle) else {
            return self.begin_ended(call, work, handle, Outcome::NoMemory, ticket);
        };
        self.hold(seen, call, work, handle, taken, ticket);
        None
    }

    // The call is in hand, with what was taken for it.
    fn hold(
        &mut self,
        seen: &Record,
        call: CallId,
        work: Work,
        handle: &Option<HandleView>,
        taken: TakenUp,
        ticket: u64,
    )
        requires drawn { HasDrawn self.old ticket }
        requires call { 0 < self.old.calls }
        requires client { self.old.client < client_numbers }
        requires next { call ≡ call_next self.old }
        requires handle { handle.now ≡ handle_of self.old work.op }
        requires may { MayRace (asked work.op) }
        requires built { IsBuilt work.op }
        requires hand { IsHandBegun (call_next self.old) work.op (kept_at_beginning seen.now (Client self.old.client) (handle_of self.old work.op)) taken.hand }
        requires copies { taken.copies.items ≡ copies_for (asked work.op) taken.hand.snapshot }
        requires told { taken.op ≡ work.op }
        ensures ready { IsReady self.new }
        ensures held { IsHeld seen.now self.old work None self.new.call }
        ensures new { self.new ≡ record self.old { table = begun_with None (call_next self.old) work.op (handle_of self.old work.op) self.old.table; calls = self.old.calls - 1; call = self.new.call; trail = with_label ticket (began_label self.old work.op None) self.old.trail } }
    {
        let TakenUp { hand, copies, op } = taken;
        let home = seen.home_of(self.client);
        self.table.begin(call, &op, handle, &None);
        self.calls -= 1;
        let held = SeatCall {
            hand,
            home,
            steps: 0,
            work,
            copies,
        };
        take_place(&mut self.call, held);
        self.note(ticket, began(call, op, None));
    }
}

// What is taken for a call that goes on.
#[derive(Drop)]
struct TakenUp {
    /// The call, with its room.
    hand: InHand,
    /// Room for the snapshots of which journals keep copies.
    copies: Vec<Snap>,
    /// Its operation, for the label of its beginning.
    op: Op,
}

// All that a call that goes on takes.
fn take_up(
    alloc: Global,
    seen: &Record,
    call: CallId,
    op: &Op,
    handle: &Option<HandleView>,
) -> Result<TakenUp, AllocError>
    requires asker { IsClientOf call.actor (asked op.now) }
    requires goes_on { IsSome (driver_start call (asked op.now) (kept_at_beginning seen.now call.actor handle.now)) }
    ensures hand { IfOk result (λ taken. IsHandBegun call op.now (kept_at_beginning seen.now call.actor handle.now) taken.hand) }
    ensures copies { IfOk result (λ taken. taken.copies.items ≡ copies_for (asked op.now) taken.hand.snapshot) }
    ensures told { IfOk result (λ taken. taken.op ≡ op.now) }
{
    let rooms = rooms_of(alloc, op, seen, handle)?;
    let copies = copies_for(alloc, op, &rooms.snapshot)?;
    let hand = begin_hand(call, op, handle, seen, rooms)?;
    let op = op.share()?;
    Ok(TakenUp { hand, copies, op })
}

// Room for the snapshots of which journals keep copies, as the room that the call has in hand.
fn copies_for(alloc: Global, op: &Op, room: &Option<Snap>) -> Result<Vec<Snap>, AllocError>
    ensures { IfOk result (λ copies. copies.items ≡ copies_for (asked op.now) room.now) }
{
    let Some(room) = room else {
        return Ok(Vec::new(alloc));
    };
    match op {
        Op::Sync(_, _) | Op::SyncAsync(_, _) => copies_of(alloc, room, NODES_MAX),
        Op::Active(_) => copies_of(alloc, room, 1),
        _ => Ok(Vec::new(alloc)),
    }
}

// So many copies of a snapshot, each with room of its own.
fn copies_of(alloc: Global, room: &Snap, count: usize) -> Result<Vec<Snap>, AllocError>
    ensures { IfOk result (λ copies. copies.items ≡ replicate count room.now) }
{
    let mut copies = Vec::new(alloc);
    for _n in 0..count {
        add_copy(alloc, room, &mut copies)?;
    }
    Ok(copies)
}

// One copy more behind the others.
fn add_copy(alloc: Global, room: &Snap, copies: &mut Vec<Snap>) -> Result<(), AllocError>
    ensures { OnOk result (copies.new.items ≡ copies.old.items ++ room.now ∷ []) }
{
    let copy = room.copy(alloc)?;
    copies.push(copy)?;
    Ok(())
}

// The first word of the line that asks for a call. What was taken for the call is given back.
fn word_of(work: Work) -> OpWord
    ensures { result ≡ word_of_op work.op }
{
    OpWord::of(work.op())
}

// The label of a beginning.
fn began(call: CallId, op: Op, end: Option<Outcome>) -> Label
    ensures { result ≡ labels.Began call op end beside.Nothing }
{
    Label::Began {
        call,
        op,
        end,
        details: Details::Nothing,
    }
}
