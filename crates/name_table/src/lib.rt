//! The names of the cluster's checkpoints, each once, with the checkpoint that it is linked to.
#![tactic(auto)]

mod moves;
mod names;

pub use names::Names;
