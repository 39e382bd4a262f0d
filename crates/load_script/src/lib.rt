//! The script of a generated load: a service of four nodes whose clients write and read one checkpoint, so many times.
#![tactic(auto)]

mod generating;
mod lines;
mod word;

pub use generating::{LOAD_MAX, generate};
pub use word::turns_in;
