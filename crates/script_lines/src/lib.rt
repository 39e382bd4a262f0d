//! The lines of cluster scripts, form by form: what the words of a line say, and how a line is spelled.
#![tactic(auto)]

mod call_forms;
mod call_printing;
mod call_shapes;
mod forms;
mod line_forms;
mod lines;
mod printing;
mod reading;

pub use lines::Line;
pub use printing::write_line;
pub use reading::read_line;
