//! A snapshot of a replica: the sections that it had at one moment, in room that is taken once.
#![tactic(auto)]

mod heads;
mod snap;

pub use snap::Snap;
