//! The asynchronous calls of one client that were not dispatched: those under way, and those that have ended, in the
//! order of their ends.
#![tactic(auto)]

mod async_call;
mod callbacks;
mod kept;
mod pending;

pub use async_call::{AsyncCall, EndedCall};
pub use callbacks::Callbacks;
pub use pending::Pending;
