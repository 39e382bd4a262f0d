//! The events by which the nodes come up and a call begins.
ghost use Rattle.ckpt_types.specs.declared.answers.Answer.TheVariants as answers;
ghost use Rattle.ckpt_types.specs.declared.answers.Outcome.TheVariants as outcomes;
ghost use Rattle.node_msgs.specs.declared.details.Details.TheVariants as beside;
ghost use Rattle.ckpt_types.specs.OpWord.{is_async, word_of_op};
ghost use Rattle.call_dispatch.specs.PendingCalls.{callback_of, given_by};
ghost use Rattle.world_core.specs.TablesState.{at_client, pending_by};
ghost use Rattle.client_calls.specs.TableState.{begun_with, next_in, CanBegin};
ghost use Rattle.world_core.specs.Answering.{IsAnsweredAtOnce, IsNextBegun};
ghost use Rattle.world_core.specs.Begun.{IsPutAlone};
ghost use Rattle.world_core.specs.HandsState.{hand_at};
ghost use Rattle.std.specs.Prelude.{◌≡◌, ◌<◌, ◌≤◌, None, Some, IfOk, IsSome, OnOk, OnErr, ◌-◌, ◌^◌, ◌++◌, ◌∷◌, [], IfSome, MatchOption, map, slice_get, true};
ghost use Rattle.ckpt_types.specs.declared.identities.ActorName.TheVariants.{Client};
ghost use Rattle.ckpt_types.specs.declared.identities.Who.TheVariants.{Actor};
ghost use Rattle.ckpt_types.specs.Limits.{client_numbers, nodes_max};
ghost use Rattle.run_labels.specs.declared.labels.Label.TheVariants as labels;
ghost use Rattle.run_labels.specs.declared.words.LineWord.TheVariants as linewords;
ghost use Rattle.cluster_record.specs.RecordState.{empty_record};
ghost use Rattle.ckpt_types.specs.Asks.{MayAsk, asked, IsBuilt};
ghost use Rattle.cluster_record.specs.Calls.{client_of};
ghost use Rattle.ckpt_machine.specs.Driving.{driver_start};
ghost use Rattle.ckpt_machine.specs.Due.{MayBegin, declared_at, kept_at_beginning, room_at};
ghost use Rattle.ckpt_machine.specs.Tables.{ckpt_of_handle};
ghost use Rattle.client_calls.specs.HandRooms.{copy_room_for, room_for};
ghost use Rattle.client_calls.specs.Names.{IsClientOf};
ghost use Rattle.world_core.specs.Shows.{IsShown, HasNumbersLeft};
ghost use Rattle.world_core.specs.Happenings.{Adds, BringsUp, Begins};

use crate::hands::Hands;
use crate::world::World;
use ckpt_types::{ActorName, Answer, Apart, CallId, Op, Outcome};
use client_calls::{HandRooms, begin_end, begin_hand, rooms_of, said, take_place, take_room};
use client_handles::HandleView;
use cluster_record::Record;
use node_msgs::Details;
use run_labels::{Label, OpWord, RunLog, Said};
use std::alloc::{AllocError, Global};

impl World {
    /// The first nodes come up.
    pub(crate) fn bring_up(&mut self, n: u8, log: &mut RunLog)
        requires some { 0 < n }
        requires few { n ≤ nodes_max }
        requires empty { self.old.cluster ≡ empty_record }
        requires spare { 1 ≤ log.old.spare }
        ensures { Adds log.old log.new (BringsUp n self.old self.new) }
    {
        self.cluster.bring_up(n);
        log.push(Label::Nodes(n));
    }

    /// A call of a client begins, or a word answers its line. Want of memory leaves the world and the log as
    /// they were.
    pub(crate) fn begin(
        &mut self,
        alloc: Global,
        c: u8,
        op: Op,
        log: &mut RunLog,
    ) -> Result<(), AllocError>
        requires client { c < client_numbers }
        requires asker { MayAsk (Client c) (asked op) }
        requires built { IsBuilt op }
        requires shown { IsShown self.old }
        requires roomy { HasNumbersLeft self.old }
        requires spare { 1 ≤ log.old.spare }
        ensures ok { OnOk result (Adds log.old log.new (Begins (Client c) op self.old self.new)) }
        ensures err { OnErr result ((self.new ≡ self.old) × (log.new.labels ≡ log.old.labels)) }
    {
        if let Some(word) = self.word_for(c, &op) {
            log.push(said(c, OpWord::of(&op), word));
            return Ok(());
        }
        self.begin_call(alloc, c, op, log)
    }

    // The word that answers the line of a client, where its call may not begin.
    fn word_for(&self, c: u8, op: &Op) -> Option<Said>
        requires client { c < client_numbers }
        requires asker { MayAsk (Client c) (asked op.now) }
        requires built { IsBuilt op.now }
        requires shown { IsShown self.now }
        ensures { MatchOption result ((hand_at self.now.hands (Actor (Client c)) ≡ None) × MayBegin self.now.cluster (Client c) (asked op.now)) (λ word. Begins (Client c) op.now self.now self.now (labels.Word (Actor (Client c)) (linewords.Op (word_of_op op.now)) word)) }
    {
        if self.hands.of_client(c).is_some() {
            return Some(Said::Busy);
        }
        let Op::Client(r, _, _) = op else {
            return None;
        };
        if self.cluster.is_live_client(c) {
            return Some(Said::Live);
        }
        if !self.cluster.is_up(*r) {
            return Some(Said::Down);
        }
        None
    }

    fn begin_call(
        &mut self,
        alloc: Global,
        c: u8,
        op: Op,
        log: &mut RunLog,
    ) -> Result<(), AllocError>
        requires client { c < client_numbers }
        requires asker { MayAsk (Client c) (asked op) }
        requires built { IsBuilt op }
        requires none { hand_at self.old.hands (Actor (Client c)) ≡ None }
        requires may { MayBegin self.old.cluster (Client c) (asked op) }
        requires shown { IsShown self.old }
        requires roomy { HasNumbersLeft self.old }
        requires spare { 1 ≤ log.old.spare }
        ensures ok { OnOk result (Adds log.old log.new (Begins (Client c) op self.old self.new)) }
        ensures err { OnErr result ((self.new ≡ self.old) × (log.new.labels ≡ log.old.labels)) }
    {
        let table = self.tables.get(c);
        let call = CallId {
            actor: ActorName::Client(c),
            number: table.number(),
        };
        let handle = table.handle_asked(&op);
        let live = self.cluster.is_live_client(c);
        let due = begin_end(live, &handle, &op, table);
        let (end, rooms) = take_room(alloc, &op, &self.cluster, &handle, due);
        match end {
            Some(end) => self.begin_at_once(alloc, c, call, op, &handle, end, log),
            None => self.begin_in_hand(c, call, op, &handle, rooms, log),
        }
    }

    // It is answered at once.
    fn begin_at_once(
        &mut self,
        alloc: Global,
        c: u8,
        call: CallId,
        op: Op,
        handle: &Option<HandleView>,
        end: Outcome,
        log: &mut RunLog,
    ) -> Result<(), AllocError>
        requires begins { IsAnsweredAtOnce self.old c call op handle.now end }
        requires shown { IsShown self.old }
        requires roomy { HasNumbersLeft self.old }
        requires spare { 1 ≤ log.old.spare }
        ensures ok { OnOk result (Adds log.old log.new (Begins (Client c) op self.old self.new)) }
        ensures err { OnErr result ((self.new ≡ self.old) × (log.new.labels ≡ log.old.labels)) }
    {
        let mut end = end;
        let details = self.begin_answered(alloc, c, call, &op, handle, &mut end)?;
        log.push(Label::Began {
            call,
            op,
            end: Some(end),
            details,
        });
        Ok(())
    }

    // It goes on, with the room that was taken for it.
    #[inline(always)]
    fn begin_in_hand(
        &mut self,
        c: u8,
        call: CallId,
        op: Op,
        handle: &Option<HandleView>,
        rooms: HandRooms,
        log: &mut RunLog,
    ) -> Result<(), AllocError>
        requires begins { IsNextBegun self.old c call op handle.now None }
        requires iteration { rooms.iteration ≡ room_for (asked op) (room_at self.old.cluster (ckpt_of_handle handle.now)) }
        requires snapshot { rooms.snapshot ≡ copy_room_for (asked op) (declared_at self.old.cluster (ckpt_of_handle handle.now)) }
        requires shown { IsShown self.old }
        requires roomy { HasNumbersLeft self.old }
        requires spare { 1 ≤ log.old.spare }
        ensures ok { OnOk result (Adds log.old log.new (Begins (Client c) op self.old self.new)) }
        ensures err { OnErr result ((self.new ≡ self.old) × (log.new.labels ≡ log.old.labels)) }
    {
        let hand = begin_hand(call, &op, handle, &self.cluster, rooms)?;
        let slot = self.hands.at_client(c);
        self.tables.at(c).begin(call, &op, handle, &None);
        take_place(slot, hand);
        log.push(Label::Began {
            call,
            op,
            end: None,
            details: Details::Nothing,
        });
        Ok(())
    }

    // A call that is answered at its beginning: it is refused or lacks its memory, or it is done: then an iteration ends, a
    // dispatch gives callbacks, or an asynchronous call goes on by itself. What is told beside its answer.
    #[inline(never)]
    fn begin_answered(
        &mut self,
        alloc: Global,
        c: u8,
        call: CallId,
        op: &Op,
        handle: &Option<HandleView>,
        end: &mut Outcome,
    ) -> Result<Details, AllocError>
        requires begins { IsAnsweredAtOnce self.old c call op.now handle.now end.old }
        requires shown { IsShown self.old }
        requires roomy { HasNumbersLeft self.old }
        ensures ok { IfOk result (λ details. Begins (Client c) op.now self.old self.new (labels.Began call op.now (Some end.new) details)) }
        ensures err { OnErr result (self.new ≡ self.old) }
    {
        let Outcome::Done(_) = end else {
            self.begin_ended(c, call, op, handle, end);
            return Ok(Details::Nothing);
        };
        match op {
            Op::OpenAsync(..) | Op::SyncAsync(..) => {
                *end = self.begin_alone(alloc, c, call, op, handle);
                Ok(Details::Nothing)
            }
            Op::Dispatch(flags) => {
                let details = self.callbacks_told(alloc, c, *flags)?;
                self.begin_ended(c, call, op, handle, end);
                Ok(details)
            }
            _ => {
                self.begin_ended(c, call, op, handle, end);
                Ok(Details::Nothing)
            }
        }
    }

    // A call begins, and is answered by that.
    #[inline(always)]
    fn begin_ended(
        &mut self,
        c: u8,
        call: CallId,
        op: &Op,
        handle: &Option<HandleView>,
        end: &Outcome,
    )
        requires client { c < client_numbers }
        requires number { next_in (slice_get self.old.tables c) < 2 ^ 32 - 1 }
        requires can { IfSome (slice_get self.old.tables c) (CanBegin (Some end.now) call op.now) }
        ensures { self.new ≡ record self.old { tables = at_client c (begun_with (Some end.now) call op.now handle.now) self.old.tables } }
    {
        self.tables.at(c).begin(call, op, handle, &Some(*end));
    }

    // An asynchronous call goes on by itself; where the memory for that is refused, it ends.
    fn begin_alone(
        &mut self,
        alloc: Global,
        c: u8,
        call: CallId,
        op: &Op,
        handle: &Option<HandleView>,
    ) -> Outcome
        requires begins { IsAnsweredAtOnce self.old c call op.now handle.now (outcomes.Done answers.Nothing) }
        requires alone { is_async (word_of_op op.now) ≡ true }
        requires shown { IsShown self.old }
        requires roomy { HasNumbersLeft self.old }
        ensures { Begins (Client c) op.now self.old self.new (labels.Began call op.now (Some result) beside.Nothing) }
    {
        let Ok(()) = put_alone(alloc, &mut self.hands, call, op, handle, &self.cluster) else {
            let end = Outcome::NoMemory;
            self.begin_ended(c, call, op, handle, &end);
            return end;
        };
        let end = Outcome::Done(Answer::Nothing);
        self.begin_ended(c, call, op, handle, &end);
        end
    }

    // The callbacks that a dispatch of a client gives.
    fn callbacks_told(&self, alloc: Global, c: u8, flags: u32) -> Result<Details, AllocError>
        requires client { c < client_numbers }
        ensures { IfOk result (λ details. details ≡ beside.Callbacks (map callback_of (given_by flags (pending_by self.now.tables c)))) }
    {
        let table = self.tables.get(c);
        let count = match table.given(flags) {
            Ok(given) => given.given,
            Err(_) => 0,
        };
        let callbacks = table.callbacks_given(alloc, count)?;
        Ok(Details::Callbacks(Apart::new(alloc, callbacks)?))
    }
}

// An asynchronous call is in hand under its own name, with the room that it takes.
fn put_alone(
    alloc: Global,
    hands: &mut Hands,
    call: CallId,
    op: &Op,
    handle: &Option<HandleView>,
    cluster: &Record,
) -> Result<(), AllocError>
    requires asker { IsClientOf call.actor (asked op.now) }
    requires goes_on { IsSome (driver_start call (asked op.now) (kept_at_beginning cluster.now call.actor handle.now)) }
    ensures ok { OnOk result (IsPutAlone call op.now (kept_at_beginning cluster.now call.actor handle.now) hands.old hands.new) }
    ensures err { OnErr result (hands.new ≡ hands.old) }
{
    let rooms = rooms_of(alloc, op, cluster, handle)?;
    let hand = begin_hand(call, op, handle, cluster, rooms)?;
    hands.add(hand)
}
