//! The driver of the calls to the active replica: what such a call does next, by the record alone.
#![tactic(auto)]

mod active_call;

pub use active_call::ActiveCall;
