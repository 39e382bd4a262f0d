//! The seats of clients: what a thread has for the calls of one client, and each call's steps, over the record and the node
//! that it is lent.
#![tactic(auto)]

mod beginning;
mod copies;
mod due;
mod held;
mod looking;
mod seat;
mod straying;
mod telling;

pub use due::Due;
pub use held::SeatCall;
pub use seat::{ClientSeat, LABELS_MAX, STEPS_MAX};
