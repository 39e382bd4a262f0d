//! What is told of a run in few lines: how many calls ended, with which codes, and in how many steps.
#![tactic(auto)]

mod counting;
mod telling;

pub use telling::summary;
