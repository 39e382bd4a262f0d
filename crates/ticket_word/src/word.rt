//! The word from which tickets are drawn.
ghost use Rattle.std.specs.Prelude.{◌≡◌, ◌+◌, ◌<◌, ◌≤◌, ◌^◌, length, All, IfOk};
ghost use Rattle.ticket_word.specs.Seats.{AreAllBelow, drawn_by, with_other, new_seat, with_less};

use crate::rule::{Amount, CutOff, Draw, TakeIn, TicketRule, View};
use crate::seat::TicketSeat;
use atomic_table::Table;
use std::alloc::{AllocError, Global};
use std::marker::{Brand, Model};

/// The word from which tickets are drawn: how many were, so that this is the next ticket. Threads share it by reference.
#[derive(Drop)]
pub struct TicketWord {
    table: Table<u8, View, u64, TicketRule, Global>,
}

impl Model for TicketWord {
    ghost use Rattle.ticket_word.specs.Seats.{WordName};

    ghost Value = { WordName };

    ghost use Rattle.ticket_word.specs.Shown.{word_shown, IsOneWord};

    ghost view = { word_shown };

    ghost invariant = { IsOneWord };
}

impl TicketWord {
    /// A word, and its first seat, which may draw all the tickets that there are to be.
    pub fn new(alloc: Global, total: u64) -> Result<(TicketWord, TicketSeat), AllocError>
        requires { total ≤ 2 ^ 63 }
        ensures word { IfOk result (λ made. made.0.total ≡ total) }
        ensures seat { IfOk result (λ made. made.1 ≡ new_seat total made.0) }
    {
        let (table, seat) = Table::of_words(alloc, &[0], &total)?;
        Ok((TicketWord { table }, TicketSeat { seat }))
    }

    /// The next ticket, by one step on the word.
    #[tactic(auto, using(crate::proofs::Steps::draws))]
    pub fn draw(&self, seat: &mut TicketSeat) -> u64
        requires word { seat.old.word ≡ self.now }
        requires allowed { 0 < seat.old.allowance }
        ensures drawn { seat.new ≡ drawn_by seat.old result }
        ensures above { All (λ ticket. ticket < result) seat.old.tickets }
        ensures below { result < self.now.total }
        ensures small { result < 2 ^ 63 }
    {
        self.table.shared.fetch_add::<Draw>(&mut seat.seat, 0, 1)
    }

    /// A new seat, to which so much of the allowance of this one goes.
    pub fn split(&self, seat: &mut TicketSeat, amount: u64) -> TicketSeat
        requires word { seat.old.word ≡ self.now }
        requires allowed { amount ≤ seat.old.allowance }
        ensures left { seat.new ≡ with_less amount seat.old }
        ensures new { result ≡ new_seat amount self.now }
    {
        self.split_by::<Brand>(seat, amount)
    }

    // The amount is an argument, so that the call can pick it.
    #[tactic(auto, using(crate::proofs::Steps::splits))]
    fn split_by<A: Amount>(&self, seat: &mut TicketSeat, _amount: u64) -> TicketSeat
        requires word { seat.old.word ≡ self.now }
        requires allowed { A.amount ≤ seat.old.allowance }
        ensures left { seat.new ≡ with_less A.amount seat.old }
        ensures new { result ≡ new_seat A.amount self.now }
    {
        let seat = self.table.shared.split_seat::<CutOff<A>>(&mut seat.seat);
        TicketSeat { seat }
    }

    /// The seat has from then on what the other has too: its tickets and its allowance. The other is no more.
    #[tactic(auto, using(crate::proofs::Steps::joins))]
    pub fn join(&self, seat: &mut TicketSeat, other: TicketSeat)
        requires word { seat.old.word ≡ self.now }
        requires same { other.word ≡ self.now }
        ensures { seat.new ≡ with_other seat.old other }
    {
        let TicketSeat { seat: other } = other;
        self.table.shared.join_seat::<TakeIn>(&mut seat.seat, other);
    }

    /// How many tickets were drawn in all. It asks for a seat that has all the others in it, which nobody can draw
    /// beside: its tickets and its allowance make the total. So its tickets are the numbers below that count.
    pub fn close(self, seat: TicketSeat) -> u64
        requires word { seat.word ≡ self }
        requires all { length seat.tickets + seat.allowance ≡ self.total }
        ensures each { AreAllBelow result seat.tickets }
        ensures count { result ≡ length seat.tickets }
    {
        let TicketWord { table } = self;
        let TicketSeat { seat } = seat;
        let closed = table.close_with(seat);
        let drawn = closed.word(0);
        closed.free();
        drawn
    }
}
