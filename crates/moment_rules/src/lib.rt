//! When a time has come, and when a duration is over. Times are nanoseconds, and the last is the end of time.
#![tactic(auto)]

mod times;

pub use times::{END, add_until, expired, reached};
