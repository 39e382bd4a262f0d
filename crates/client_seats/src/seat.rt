//! A client's seat: its call in hand, and the trail of its labels with their tickets.
ghost use Rattle.std.specs.Prelude.{◌≡◌, ◌*◌, ◌+◌, ◌-◌, ◌^◌, ◌<◌, ◌≤◌, [], None, Some, All, MatchOption, true};
ghost use Rattle.shared_nodes.specs.Trails.{tickets_of};
ghost use Rattle.ticket_word.specs.Seats.{drawn_by};
ghost use Rattle.client_seats.specs.Seats.{labels_left, labels_max, with_label, HasDrawn, IsReady};

use crate::held::{SeatCall, clear};
use ckpt_types::NodeId;
use client_calls::Table;
use cluster_record::Record;
use run_labels::Label;
use shared_nodes::{Noted, Trail};
use std::marker::Model;
use ticket_word::{TicketSeat, TicketWord};

/// How many steps a call has at most.
pub const STEPS_MAX: u32 = 512;

/// How many labels a call has at most: that of its beginning, and one for each step.
pub const LABELS_MAX: u32 = 513;

/// The seat of a client: what a thread has for the client's calls. The calls below are lent the record, the node's cell and
/// the ticket of their step, and take no lock.
#[derive(Drop)]
pub struct ClientSeat {
    /// The number of the client; 100 for a seat that tells failures alone.
    pub(crate) client: u8,
    /// What is kept of the client.
    pub(crate) table: Table,
    /// The node of the client's call that was in hand before, if one was.
    pub(crate) busy: Option<NodeId>,
    /// For how many calls the seat was made.
    pub(crate) made: u32,
    /// How many of them are left.
    pub(crate) calls: u32,
    /// The call in hand.
    pub(crate) call: Option<SeatCall>,
    /// The labels of its calls.
    pub(crate) trail: Trail,
    /// The right to draw tickets.
    pub(crate) tickets: TicketSeat,
}

impl Model for ClientSeat {
    ghost use Rattle.client_seats.specs.SeatState.{KeptSeat};

    ghost Value = { KeptSeat };

    ghost use Rattle.client_seats.specs.SeatView.{seat_shown, IsSeated};

    ghost view = { seat_shown };

    ghost invariant = { IsSeated };
}

impl ClientSeat {
    /// A seat for so many calls of a client, of which this table is kept, and which had a call in hand before on this
    /// node, if it had one. The client's numbers have to last for all of them; the trail is empty, with room for all their
    /// labels, and the tickets are for as many. It takes no memory.
    pub fn new(
        client: u8,
        table: Table,
        busy: Option<NodeId>,
        calls: u32,
        trail: Trail,
        tickets: TicketSeat,
    ) -> ClientSeat
        requires roomy { table.roomy ≡ true }
        requires numbers { table.next + calls ≤ 2 ^ 32 - 1 }
        requires handles { table.client.last_number + calls ≤ 2 ^ 32 - 1 }
        requires iterations { table.client.last_iteration + calls ≤ 2 ^ 32 - 1 }
        requires fresh { tickets.tickets ≡ [] }
        requires allowed { tickets.allowance ≡ labels_max * calls }
        requires empty { trail ≡ record { notes = []; spare = labels_max * calls } }
        ensures ready { IsReady result }
        ensures seat { result ≡ record { client = client; table = table; busy = busy; made = calls; calls = calls; call = None; trail = trail; tickets = tickets } }
    {
        ClientSeat {
            client,
            table,
            busy,
            made: calls,
            calls,
            call: None,
            trail,
            tickets,
        }
    }

    /// The ticket of a step is drawn, while what the step is about is lent: no ticket can be drawn where no record is.
    pub fn draw(&mut self, word: &TicketWord, _seen: &Record) -> u64
        requires ready { IsReady self.old }
        requires left { 0 < labels_left self.old }
        requires word { self.old.tickets.word ≡ word.now }
        ensures drawn { HasDrawn self.new result }
        ensures new { self.new ≡ record self.old { tickets = drawn_by self.old.tickets result } }
        ensures below { result < word.now.total }
    {
        word.draw(&mut self.tickets)
    }

    /// The number of its client.
    pub fn client(&self) -> u8
        ensures { result ≡ self.now.client }
    {
        self.client
    }

    /// How many calls are left to it.
    pub fn calls(&self) -> u32
        ensures { result ≡ self.now.calls }
    {
        self.calls
    }

    /// For how many calls it was made.
    pub fn made(&self) -> u32
        ensures { result ≡ self.now.made }
    {
        self.made
    }

    /// The call in hand.
    pub fn call(&self) -> Option<&SeatCall>
        ensures { MatchOption result (self.now.call ≡ None) (λ call. self.now.call ≡ Some call.now) }
    {
        match &self.call {
            None => None,
            Some(call) => Some(call),
        }
    }

    /// The labels of its calls, with their tickets.
    pub fn trail(&self) -> &Trail
        ensures { result.now ≡ self.now.trail }
    {
        &self.trail
    }

    /// Its labels, and its right to draw. What it keeps of its client goes.
    pub fn into_parts(self) -> (Trail, TicketSeat)
        ensures trail { result.0 ≡ self.trail }
        ensures tickets { result.1 ≡ self.tickets }
    {
        let ClientSeat { trail, tickets, .. } = self;
        (trail, tickets)
    }

    /// The call in hand is dropped, if there is one.
    pub fn let_go(&mut self)
        ensures new { self.new ≡ record self.old { call = None } }
        ensures ready { IsReady self.old → IsReady self.new }
    {
        clear(&mut self.call);
    }

    // The label of the ticket stands behind the others.
    pub(crate) fn note(&mut self, ticket: u64, label: Label)
        requires room { 1 ≤ self.old.trail.spare }
        requires above { All (λ other. other < ticket) (tickets_of self.old.trail.notes) }
        ensures { self.new ≡ record self.old { trail = with_label ticket label self.old.trail } }
    {
        self.trail.push(Noted { ticket, label });
    }
}
