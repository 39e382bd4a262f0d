//! The record of the cluster, on which all nodes agree, and its steps.
#![tactic(auto)]

mod by_node;
mod calls;
mod clients;
mod copying;
mod counts;
mod deadlines;
mod ends;
mod entries;
mod joining;
mod leaders;
mod opening;
mod placement;
mod record;
mod staging;

pub use by_node::{first_lacking, has_any, last_having};
pub use calls::{ActiveKind, Making, MarksMade, PulledAt, SyncKind, UpdatePhase};
pub use clients::{LiveClient, number_of};
pub use copying::{CopyPhase, Copying};
pub use counts::{Counts, UpdateCount};
pub use deadlines::in_time;
pub use ends::{count_told, is_own, refused_end};
pub use entries::{Entry, KeptName, first_complete, is_active};
pub use opening::{OpenAnswer, accepts};
pub use placement::{is_all, is_collocated};
pub use record::{Record, RecordRefused};
pub use staging::Staging;
