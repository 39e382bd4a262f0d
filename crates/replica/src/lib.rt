//! One replica of a checkpoint: its sections, and the update that is staged on it.
#![tactic(auto)]

mod replica;

pub use replica::{Older, Replica, StageRefused};
