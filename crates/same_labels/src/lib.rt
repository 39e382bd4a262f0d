//! Whether two labels of a run are the same.
#![tactic(auto)]

mod details;
mod ends;
mod items;
mod labels;
mod operations;
mod shows;
mod steps;
mod updates;

pub use labels::same_label;
