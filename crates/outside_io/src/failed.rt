//! The one error of sources and sinks.

/// A source or a sink did not do what it was asked. Its count of faults rose in the same call.
#[derive(Clone, Copy, Debug, PartialEq, Eq)]
pub struct Failed;
