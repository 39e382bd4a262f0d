//! The cluster: its record, the nodes, the clients' tables and the calls in hand, one event at a time.
#![tactic(auto)]

mod applying;
mod begins;
mod copying;
mod failing;
mod gone;
mod hands;
mod joining;
mod law;
mod moments;
mod propagation;
mod setting;
mod showing;
mod snapshots;
mod steps;
mod tables;
mod updating;
mod weak_writes;
mod world;
mod world_parts;

pub use law::world_law;
pub use world::{Cluster, Event, World};
pub use world_parts::WorldParts;
