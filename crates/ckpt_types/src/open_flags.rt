//! What the flags of an open allow to its handle.
ghost use Rattle.std.specs.Prelude.{◌≡◌};

use crate::ais_error::AisError;
use crate::attributes::has_flag;
use crate::limits::{CHECKPOINT_CREATE, CHECKPOINT_READ, CHECKPOINT_WRITE, OPEN_FLAGS_ALL};

/// What a checkpoint is opened for.
#[derive(Clone, Copy, Debug, PartialEq, Eq)]
pub struct OpenFlags {
    /// The handle may read.
    pub read: bool,
    /// The handle may write.
    pub write: bool,
    /// The checkpoint is made where it is missing.
    pub create: bool,
}

impl OpenFlags {
    ghost use Rattle.ckpt_types.specs.Attributes.{open_flags_of};

    /// The flags of these bits. `BadFlags` where there is none, or an unknown one.
    pub fn from_bits(bits: u32) -> Result<OpenFlags, AisError>
        ensures { result ≡ open_flags_of bits }
    {
        if bits == 0 || bits > OPEN_FLAGS_ALL {
            return Err(AisError::BadFlags);
        }
        Ok(OpenFlags {
            read: has_flag(bits, CHECKPOINT_READ),
            write: has_flag(bits, CHECKPOINT_WRITE),
            create: has_flag(bits, CHECKPOINT_CREATE),
        })
    }
}
