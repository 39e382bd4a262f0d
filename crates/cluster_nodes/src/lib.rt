//! The nodes of a cluster, each by its number, with their replicas.
#![tactic(auto)]

mod counting;
mod nodes;

pub use counting::counts_of;
pub use nodes::Nodes;
