//! An iteration over the sections of a checkpoint, which are told by the identifiers kept when it began.
#![tactic(auto)]

mod choices;
mod ids;
mod iteration;
mod present;
mod room;

pub use iteration::{Iteration, NoSections};
pub use room::Room;
