//! The reader and the printer of cluster scripts.
#![tactic(auto)]

mod faults;
mod marks;
mod parser;
mod printing;
mod quick;
mod reading;
mod script;

pub use faults::{ParseError, ScriptFault};
pub use parser::parse;
pub use printing::{print, read_again};
pub use script::Script;
pub use script_lines::Line;
pub use script_words::Reason;
