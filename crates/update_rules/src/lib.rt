//! Whether an update or a read is refused, decided before anything is changed.
#![tactic(auto)]

mod present;
mod reads;
mod refused;
mod updates;
mod writes;

pub use reads::check_read;
pub use refused::Refused;
pub use updates::{check, check_placed};
