//! What one client's call does, over the table of its client and its place among the calls in hand.
#![tactic(auto)]

mod abandoning;
mod alone;
mod beginning;
mod begun;
mod copy_hand;
mod copying;
mod details;
mod drivers;
mod hand_rooms;
mod in_hand;
mod iterating;
mod kept_calls;
mod lending;
mod messages;
mod one_step;
mod options;
mod settling;
mod table;

pub use abandoning::{copy_unless_abandoned, unless_abandoned};
pub use alone::AloneCalls;
pub use beginning::begin_end;
pub use begun::{begin_hand, rooms_of, take_room};
pub use copy_hand::{CopyHand, clear_copy, let_go_copy, place_copy};
pub use copying::copy_of_places;
pub use details::{told_details, told_read};
pub use drivers::{Driver, DriverKind, event_ckpt, event_granted, event_node};
pub use hand_rooms::HandRooms;
pub use in_hand::{InHand, clear, client_by, hand_over, let_go, take_place};
pub use iterating::{keep_iteration, lend_if_there, lend_iteration};
pub use lending::{commit_lent, creates, elements_in, lent_by, reserve_for, share_update};
pub use messages::{
    done, goes_on, idle_label, look_word, looked, refusal_word, said, said_of_node, served, stepped,
};
pub use one_step::OneStep;
pub use options::is_all;
pub use settling::{settle, settle_look};
pub use table::Table;
