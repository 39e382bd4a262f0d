//! Where the threads of a race may be held up.

/// What the threads of a race call on their way. It can hold a thread up, and answers nothing.
pub trait Gate: Sync {
    /// Called by a client's thread before each of its steps, which are counted from 0. A beginning is a step.
    fn before(&self, client: u8, step: u64);

    /// Called by a client's thread while it holds the lock of a node.
    fn inside(&self, client: u8, node: u8);
}

/// The gate that lets every thread pass at once.
#[derive(Clone, Copy)]
pub struct OpenGate;

impl Gate for OpenGate {
    fn before(&self, _client: u8, _step: u64) {}

    fn inside(&self, _client: u8, _node: u8) {}
}
