//! The words of cluster scripts: how the words of each class are spelled, and what they say.
#![tactic(auto)]

mod digits;
mod reading;
mod reason;
mod writing;

pub use reading::{
    bytes, callbacks, ckpt, client, id, iteration, moment, new_id, node, number, place, quoted,
    time, version, who,
};
pub use reason::{LineError, Reason};
pub use writing::{
    write_bytes, write_callbacks, write_ckpt, write_client, write_decimal, write_id,
    write_iteration, write_new_id, write_node, write_number, write_place, write_time,
    write_version, write_who,
};
