//! A node that keeps the journal of what was done to it; and what a thread has for its calls: their labels with tickets,
//! and what each needs.
#![tactic(auto)]

mod cell;
mod journal;
mod kept;
mod seen;
mod trail;
mod work;

pub use cell::NodeCell;
pub use journal::{Journal, JournalEntry, NodeStep};
pub use kept::Kept;
pub use seen::Seen;
pub use trail::{Noted, Trail};
pub use work::{COMMITS_MAX, READ_SHARES_MAX, UPDATE_SHARES_MAX, Work};
