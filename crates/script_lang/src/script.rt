//! A script as a value.
use ckpt_types::Vector;
use script_lines::Line;

/// The lines of a script, in their order.
pub type Script = Vector<Line>;
