//! Rows of a table: each holds, or it is told by its number. What is asserted here once costs no function a way out for
//! each of its rows.
use std::alloc::AllocError;
use std::process::Abort;

/// The row holds.
pub fn holds(rt: &impl Abort, row: u32, fact: bool) {
    assert!(rt; fact, "row {row}");
}

/// The row holds, and there was memory for it.
pub fn met(rt: &impl Abort, row: u32, fact: Result<bool, AllocError>) {
    holds(rt, row, matches!(fact, Ok(true)));
}
