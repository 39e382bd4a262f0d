//! What a driver asks of a node and of the record of the cluster, and what a node answers.
#![tactic(auto)]

mod changes;
mod details;
mod next;
mod replies;
mod requests;
mod steps;

pub use changes::NodeChange;
pub use details::Details;
pub use next::{Next, RecordStep};
pub use replies::Reply;
pub use requests::Request;
pub use steps::{StepReply, Verb};
