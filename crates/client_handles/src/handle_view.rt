//! What is told of an open handle.
use ckpt_types::{CkptId, OpenFlags};

/// An open handle, as it was taken.
#[derive(Clone, Copy, Debug, PartialEq, Eq)]
pub struct HandleView {
    /// The checkpoint.
    pub id: CkptId,
    /// What it was opened for.
    pub flags: OpenFlags,
    /// The checkpoint's creation flags.
    pub creation_flags: u32,
    /// The handle's number, from 1. A client's numbers are never given twice.
    pub handle: u32,
}
