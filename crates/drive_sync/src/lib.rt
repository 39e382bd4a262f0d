//! The driver of the calls that bring what the active has to other replicas: what such a call does next, by the record
//! alone.
#![tactic(auto)]

mod sync_call;

pub use sync_call::SyncCall;
