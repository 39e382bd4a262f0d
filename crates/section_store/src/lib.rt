//! The sections of one replica, in storage that is taken when it opens: no update takes memory.
#![tactic(auto)]

mod extents;
mod identifiers;
mod kept;
mod keyed;
mod order;
mod packing;
mod plan;
mod planning;
mod reads;
mod region;
mod store;
mod summary;

pub use plan::{Plan, Planned};
pub use region::Region;
pub use store::Store;
