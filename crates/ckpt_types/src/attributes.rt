//! The attributes of a checkpoint, and which of them are malformed.
ghost use Rattle.std.specs.Prelude.{◌≡◌, ◌↔◌, IsTrue};
ghost use Rattle.ckpt_types.specs.Attributes.{has_flag, has_malformed_flags, has_malformed_sizes, checked, same_but_retention};

use crate::ais_error::AisError;
use crate::limits::{
    CHECKPOINT_COLLOCATED, CREATION_FLAGS_ALL, DECLARED_BYTES_MAX, DECLARED_ID_MAX, SECTIONS_MAX,
    WR_ACTIVE_REPLICA, WR_ACTIVE_REPLICA_WEAK, WR_ALL_REPLICAS,
};
use crate::shared::Shared;

/// What a checkpoint is declared to have when it is made.
#[derive(Clone, Copy, PartialEq, Eq)]
pub struct CreationAttributes {
    /// The creation flags.
    pub creation_flags: u32,
    /// The most bytes that all sections have together.
    pub checkpoint_size: u64,
    /// How long the checkpoint is kept while nobody has it open, in nanoseconds.
    pub retention_duration: i64,
    /// The most sections.
    pub max_sections: u32,
    /// The most bytes of one section.
    pub max_section_size: u64,
    /// The most bytes of an identifier.
    pub max_section_id_size: u64,
}

/// The attributes of an open, if it has any, which the operation, its driver and the log share.
pub type SharedAttributes = Shared<Option<CreationAttributes>>;

impl CreationAttributes {
    /// Refuses malformed attributes with `InvalidParam`: an unknown creation flag; not just one of the
    /// three update options; collocated with all replicas; a size or a number of sections of 0; a size
    /// above what the sections can have; a limit of the service passed; a negative retention.
    pub fn check(&self) -> Result<(), AisError>
        ensures { result ≡ checked self.now }
    {
        if has_malformed_flags(self.creation_flags)
            || self.has_malformed_sizes()
            || self.retention_duration < 0
        {
            Err(AisError::InvalidParam)
        } else {
            Ok(())
        }
    }

    /// Whether the other attributes are these, the retention left aside.
    pub fn same_but_retention(&self, other: &CreationAttributes) -> bool
        ensures value { result ≡ same_but_retention self.now other.now }
        ensures meaning { IsTrue result ↔ (other.now ≡ record self.now { retention_duration = other.now.retention_duration }) }
    {
        self.creation_flags == other.creation_flags
            && self.checkpoint_size == other.checkpoint_size
            && self.max_sections == other.max_sections
            && self.max_section_size == other.max_section_size
            && self.max_section_id_size == other.max_section_id_size
    }

    fn has_malformed_sizes(&self) -> bool
        ensures { result ≡ has_malformed_sizes self.now }
    {
        let declared = u128::from(self.max_sections) * u128::from(self.max_section_size);
        self.checkpoint_size == 0
            || self.max_sections == 0
            || self.max_section_size == 0
            || self.max_section_id_size == 0
            || declared < u128::from(self.checkpoint_size)
            || declared > u128::from(DECLARED_BYTES_MAX)
            || self.max_sections > SECTIONS_MAX
            || self.max_section_id_size > DECLARED_ID_MAX
    }
}

/// Whether the flag, one bit, is among the flags.
pub fn has_flag(flags: u32, flag: u32) -> bool
    ensures { result ≡ has_flag flags flag }
{
    flags & flag != 0
}

fn has_malformed_flags(flags: u32) -> bool
    ensures { result ≡ has_malformed_flags flags }
{
    let all = has_flag(flags, WR_ALL_REPLICAS);
    let active = has_flag(flags, WR_ACTIVE_REPLICA);
    let weak = has_flag(flags, WR_ACTIVE_REPLICA_WEAK);
    let options = u8::from(all) + u8::from(active) + u8::from(weak);
    flags > CREATION_FLAGS_ALL || options != 1 || (all && has_flag(flags, CHECKPOINT_COLLOCATED))
}
