//! The numbers of the standard and of this profile, as the code has them. What each means, and that each is the
//! number of its definition, stands in specs/Limits.antt and proofs/Constants.antt.

use crate::identities::Moment;

/// Creation flag: an update is done when every replica has it.
pub const WR_ALL_REPLICAS: u32 = 1;

/// Creation flag: an update is done when the active replica has it.
pub const WR_ACTIVE_REPLICA: u32 = 2;

/// Creation flag: as `WR_ACTIVE_REPLICA`, and a write that is cut short may leave its sections corrupted.
pub const WR_ACTIVE_REPLICA_WEAK: u32 = 4;

/// Creation flag: replicas are on the nodes that opened the checkpoint, and a client sets the active.
pub const CHECKPOINT_COLLOCATED: u32 = 8;

/// All creation flags together.
pub const CREATION_FLAGS_ALL: u32 = 15;

/// Open flag: the handle may read.
pub const CHECKPOINT_READ: u32 = 1;

/// Open flag: the handle may write.
pub const CHECKPOINT_WRITE: u32 = 2;

/// Open flag: the checkpoint is made where it is missing.
pub const CHECKPOINT_CREATE: u32 = 4;

/// All open flags together.
pub const OPEN_FLAGS_ALL: u32 = 7;

/// Choice of sections: those that never expire.
pub const SECTIONS_FOREVER: u32 = 1;

/// Choice of sections: those that expire at the time or before.
pub const SECTIONS_LEQ_EXPIRATION_TIME: u32 = 2;

/// Choice of sections: those that expire at the time or later.
pub const SECTIONS_GEQ_EXPIRATION_TIME: u32 = 3;

/// Choice of sections: the corrupted ones.
pub const SECTIONS_CORRUPTED: u32 = 4;

/// Choice of sections: all.
pub const SECTIONS_ANY: u32 = 5;

/// Dispatch flag: one callback is given.
pub const DISPATCH_ONE: u32 = 1;

/// Dispatch flag: all callbacks are given that are there.
pub const DISPATCH_ALL: u32 = 2;

/// The time that means never: no moment reaches it.
pub const NEVER: Moment = i64::MAX;

/// The release of the service, the letter of its versions.
pub const RELEASE: u8 = b'B';

/// The first major version of the release that is spoken.
pub const MAJOR_MIN: u8 = 1;

/// The last major version of the release that is spoken, which is the one that is answered.
pub const MAJOR_MAX: u8 = 2;

/// The minor version that is answered.
pub const MINOR_ANSWERED: u8 = 2;

/// The most bytes that a checkpoint's name has.
pub const NAME_MAX: usize = 256;

/// The most bytes that an identifier of a section has.
pub const SECTION_ID_MAX: usize = 256;

/// The most bytes that the sections of a checkpoint may be declared to have.
pub const DECLARED_BYTES_MAX: u64 = 1_048_576;

/// The most sections that a checkpoint may be declared to have.
pub const SECTIONS_MAX: u32 = 1_024;

/// The most bytes that the identifiers of a checkpoint's sections may be declared to have.
pub const DECLARED_ID_MAX: u64 = 64;

/// The bytes of an identifier that the service makes.
pub const GENERATED_ID_BYTES: u64 = 8;

/// The most elements of a write or a read.
pub const VECTOR_MAX: usize = 64;

/// The most nodes, n0 to n7.
pub const NODES_MAX: usize = 8;

/// The numbers of clients, c0 to c99.
pub const CLIENT_NUMBERS: usize = 100;

/// One more than the last checkpoint that a word says, K1 to K9999.
pub const CKPT_NUMBERS: u64 = 10_000;

/// The most live clients.
pub const CLIENTS_MAX: usize = 64;

/// The most checkpoints, those in the making and the unlinked ones among them.
pub const CHECKPOINTS_MAX: usize = 16;

/// The places of a client's handles, h0 to h99, and of its iterations, i0 to i99.
pub const PLACES_MAX: usize = 100;

/// The most handles that a client has.
pub const HANDLES_MAX: usize = 32;

/// The most iterations that a client has.
pub const ITERATIONS_MAX: usize = 8;

/// A client has so many asynchronous calls that were not dispatched.
pub const PENDING_MAX: usize = 16;

/// The most bytes of a script.
pub const SCRIPT_BYTES_MAX: usize = 262_144;

/// The most lines of a script.
pub const SCRIPT_LINES_MAX: u32 = 10_000;

/// The most bytes that all reads of a script ask for together.
pub const SCRIPT_READS_MAX: u64 = 16_777_216;

/// The most lines of a script that show a checkpoint.
pub const SCRIPT_SHOWS_MAX: u32 = 16;

/// The most lines of a block that threads run.
pub const BLOCK_LINES_MAX: u32 = 256;

/// The most elements that a line of a script gives to a write or a read.
pub const LINE_ELEMENTS_MAX: usize = 256;

/// The most steps that a line of a script asks for.
pub const LINE_STEPS_MAX: u64 = 1_000_000;

/// The most bytes that a show lists of a section, its first ones.
pub const LISTED_BYTES_MAX: usize = 16;
