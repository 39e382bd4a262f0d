//! The slot in which a replica keeps the one update that is staged on it.
#![tactic(auto)]

mod slot;

pub use slot::{Claimed, Slot, Staged};
