//! The driver of an update on all replicas: what such a call does next, by its own steps and the record.
#![tactic(auto)]

mod update_call;

pub use update_call::UpdateCall;
