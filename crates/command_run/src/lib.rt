//! A command of the program: its words, the script that it reads, and the lines that it writes.
#![tactic(auto)]

mod arguments;
mod command_line;
mod reading;
mod running;
mod writing;

pub use arguments::{Arguments, StdArguments};
pub use command_line::words;
pub use running::{Status, run_command};
