//! Tickets: numbers that several threads draw from one word, each once and none left out.
#![tactic(auto)]

mod rule;
mod seat;
mod word;

pub use seat::TicketSeat;
pub use word::TicketWord;
