//! The right to draw tickets, which a thread keeps to itself.
use crate::rule::View;
use atomic_table::Seat;
use std::marker::Model;

/// The right to draw from a word, with the tickets that were drawn by it. It takes no memory, and may cross threads.
#[derive(Drop)]
pub struct TicketSeat {
    pub(crate) seat: Seat<u8, View>,
}

impl Model for TicketSeat {
    ghost use Rattle.ticket_word.specs.Seats.{SeatState};

    ghost Value = { SeatState };

    ghost use Rattle.ticket_word.specs.Shown.{seat_shown, HoldsNoSlot};

    ghost view = { seat_shown };

    ghost invariant = { HoldsNoSlot };
}
