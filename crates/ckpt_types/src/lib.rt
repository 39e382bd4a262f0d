//! The types of every call of the Checkpoint Service, and what its sections mean.
#![tactic(auto)]

mod ais_error;
mod answers;
mod apart;
mod attributes;
mod byte_room;
mod bytes;
mod calls;
mod counting;
mod elements;
mod identities;
mod limits;
mod open_flags;
mod operation;
mod piece_room;
mod read_buf;
mod section_id;
mod sections;
mod shared;
mod update;
mod vector;
mod words;

pub use ais_error::AisError;
pub use answers::{Answer, Cause, Given, Outcome};
pub use apart::Apart;
pub use attributes::{CreationAttributes, SharedAttributes, has_flag};
pub use byte_room::extend_reserved;
pub use bytes::{Bytes, SharedName, name_fits};
pub use calls::{
    AsyncKind, Callback, CallbackSet, Count, Held, OpenAsk, RaceBlock, RaceLine, Version,
};
pub use counting::totals;
pub use elements::Elements;
pub use identities::{ActorName, CallId, CkptId, Incarnation, Moment, NodeId, Who};
pub use limits::{
    BLOCK_LINES_MAX, CHECKPOINT_COLLOCATED, CHECKPOINT_CREATE, CHECKPOINT_READ, CHECKPOINT_WRITE,
    CHECKPOINTS_MAX, CKPT_NUMBERS, CLIENT_NUMBERS, CLIENTS_MAX, CREATION_FLAGS_ALL,
    DECLARED_BYTES_MAX, DECLARED_ID_MAX, DISPATCH_ALL, DISPATCH_ONE, GENERATED_ID_BYTES,
    HANDLES_MAX, ITERATIONS_MAX, LINE_ELEMENTS_MAX, LINE_STEPS_MAX, LISTED_BYTES_MAX, MAJOR_MAX,
    MAJOR_MIN, MINOR_ANSWERED, NAME_MAX, NEVER, NODES_MAX, OPEN_FLAGS_ALL, PENDING_MAX, PLACES_MAX,
    RELEASE, SCRIPT_BYTES_MAX, SCRIPT_LINES_MAX, SCRIPT_READS_MAX, SCRIPT_SHOWS_MAX,
    SECTION_ID_MAX, SECTIONS_ANY, SECTIONS_CORRUPTED, SECTIONS_FOREVER,
    SECTIONS_GEQ_EXPIRATION_TIME, SECTIONS_LEQ_EXPIRATION_TIME, SECTIONS_MAX, VECTOR_MAX,
    WR_ACTIVE_REPLICA, WR_ACTIVE_REPLICA_WEAK, WR_ALL_REPLICAS,
};
pub use open_flags::OpenFlags;
pub use operation::Op;
pub use read_buf::{Pieces, ReadBuf};
pub use section_id::SectionId;
pub use sections::{
    CheckpointDescriptor, Choice, SectionDescriptor, SectionRef, SectionState, Sections, Totals,
};
pub use shared::Shared;
pub use update::{
    IoElement, IoVector, NewId, ReadElement, ReadVector, SharedReads, SharedUpdate, Update,
};
pub use vector::Vector;
pub use words::{FirstWord, OpWord};
