//! The driver of an open: what it does next, and what it makes, by its own steps and the record.
#![tactic(auto)]

mod open_call;

pub use open_call::{OpenCall, SharedAsk};
