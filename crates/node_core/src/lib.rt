//! A node: its replicas, and what a request and a step of the record make of them.
#![tactic(auto)]

mod changing;
mod copying;
mod failing;
mod fitting;
mod keeping;
mod lending;
mod lent;
mod node;
mod reads;
mod replicas;
mod reserving;
mod seen;
mod serving;
mod snapshots;
mod updates;
mod weak_writes;

pub use lending::bytes_asked;
pub use lent::Lent;
pub use node::Node;
pub use snapshots::pull_whole;
pub use updates::reply_refused;
