//! The driver of the copying to a node that has come back: what it does next, by its own steps and the record.
#![tactic(auto)]

mod copy_call;

pub use copy_call::CopyCall;
