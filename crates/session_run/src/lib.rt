//! A script is played on a cluster: each line in its turn, each call from its beginning to its end.
#![tactic(auto)]

mod calls;
mod playing;
mod propagation;

pub use playing::session;
