//! The updates that calls make of a checkpoint's sections, and the elements of reads.
use crate::bytes::Bytes;
use crate::elements::Elements;
use crate::identities::Moment;
use crate::shared::Shared;

/// One element of a write: bytes, and where in which section they go.
#[derive(Drop)]
pub struct IoElement {
    /// The identifier of the section.
    pub id: Bytes,
    /// From which byte of the section on.
    pub offset: u64,
    /// What is written there.
    pub bytes: Bytes,
}

/// One element of a read: which bytes of which section.
#[derive(Drop)]
pub struct ReadElement {
    /// The identifier of the section.
    pub id: Bytes,
    /// From which byte of the section on.
    pub offset: u64,
    /// How many bytes at most.
    pub len: u64,
}

/// The elements of a write, fewer than 2^32.
pub type IoVector = Elements<IoElement>;

/// The elements of a read, fewer than 2^32.
pub type ReadVector = Elements<ReadElement>;

/// The identifier of a new section.
#[derive(Drop)]
pub enum NewId {
    /// The caller's.
    Given(Bytes),
    /// One that the service makes.
    Generated,
}

/// What a call makes of the sections of a checkpoint.
#[derive(Drop)]
pub enum Update {
    /// Writes the elements in order, all of them or none.
    Write(IoVector),
    /// Replaces the bytes of a section.
    Overwrite(Bytes, Bytes),
    /// Makes a section that expires at the moment.
    Create(NewId, Moment, Bytes),
    /// Takes a section away.
    Delete(Bytes),
    /// Gives a section another expiration.
    SetExpiration(Bytes, Moment),
    /// Leaves the sections that are present; a joining node is copied under it.
    Nothing,
}

/// An update that a call, its slots and the log share.
pub type SharedUpdate = Shared<Update>;

/// The elements of a read that a call and the log share.
pub type SharedReads = Shared<ReadVector>;
