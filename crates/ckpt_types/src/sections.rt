//! What calls see of the sections of a checkpoint, whoever keeps them.
ghost use Rattle.std.specs.Prelude.{◌≡◌, ◌<◌, List, length, slice_get, Option, Some, None, MatchOption};

use crate::attributes::CreationAttributes;
use crate::identities::Moment;
use crate::section_id::SectionId;

/// Whether a section has what was written into it.
#[derive(Clone, Copy, Debug, PartialEq, Eq)]
pub enum SectionState {
    /// It has what was written.
    Valid = 1,
    /// A write into it was cut short.
    Corrupted = 2,
}

/// Which sections an iteration goes over.
#[derive(Clone, Copy)]
pub struct Choice {
    /// One of the five choices; others choose nothing.
    pub chosen: u32,
    /// The time that expirations are compared with.
    pub time: Moment,
}

/// A section, as its map lends it.
#[derive(Clone, Copy)]
pub struct SectionRef<'a> {
    /// Its identifier.
    pub id: &'a SectionId,
    /// Its bytes.
    pub bytes: &'a [u8],
    /// The moment from which on it is absent.
    pub expiration: Moment,
    /// Whether it has what was written.
    pub state: SectionState,
    /// The moment of the last update of its bytes.
    pub last_update: Moment,
}

impl SectionRef<'_> {
    ghost use Rattle.ckpt_types.specs.Reads.{description};
    ghost use Rattle.ckpt_types.specs.Sections.{section_of, is_present};

    /// Whether the section is present at the moment, which it is while its expiration is above it.
    pub fn is_present(&self, now: Moment) -> bool
        ensures { result ≡ is_present now (section_of self.now) }
    {
        now < self.expiration
    }

    /// What an iteration or a show tells of the section.
    pub fn describe(&self) -> SectionDescriptor
        ensures { result ≡ description (section_of self.now) }
    {
        SectionDescriptor {
            id: *self.id,
            expiration: self.expiration,
            size: self.bytes.len() as u64,
            state: self.state,
            last_update: self.last_update,
        }
    }
}

/// What an iteration tells of a section.
#[derive(Clone, Copy, Debug, PartialEq, Eq)]
pub struct SectionDescriptor {
    /// Its identifier.
    pub id: SectionId,
    /// The moment from which on it is absent.
    pub expiration: Moment,
    /// How many bytes it has.
    pub size: u64,
    /// Whether it has what was written.
    pub state: SectionState,
    /// The moment of the last update of its bytes.
    pub last_update: Moment,
}

/// What a status tells of a checkpoint.
#[derive(Clone, Copy)]
pub struct CheckpointDescriptor {
    /// Its attributes, with the retention as it is now.
    pub attributes: CreationAttributes,
    /// How many sections are present.
    pub number_of_sections: u32,
    /// How many bytes they have together.
    pub memory_used: u64,
}

/// What the sections that are present come to.
#[derive(Clone, Copy)]
pub struct Totals {
    /// How many they are.
    pub count: usize,
    /// How many bytes they have together.
    pub bytes: u64,
}

/// A finite map of sections, by identifier, in the order of the identifiers.
pub trait Sections {
    ghost use Rattle.ckpt_types.specs.Sections.{Section, Rises, place_of, section_at, section_of, memory_used, earliest_expiration};

    /// The sections, in the order of their identifiers.
    ghost sections: { Self → List Section };

    /// How many sections there are.
    fn len(&self) -> usize
        ensures count { result ≡ length (sections self.now) }
        ensures in_order { Rises (sections self.now) };

    /// The section at a place, counted from 0.
    fn at(&self, place: usize) -> SectionRef<'_>
        requires { place < length (sections self.now) }
        ensures { slice_get (sections self.now) place ≡ Some (section_of result) };

    /// The place of the section of that identifier.
    fn find(&self, id: &[u8]) -> Option<usize>
        ensures place { result ≡ place_of id.now (sections self.now) }
        ensures section { MatchOption result (section_at id.now (sections self.now) ≡ None) (λ place. section_at id.now (sections self.now) ≡ slice_get (sections self.now) place) };

    /// How many bytes all sections have together.
    fn sum(&self) -> u64
        ensures { result ≡ memory_used (sections self.now) };

    /// The least expiration of all sections, `NEVER` where there is none.
    fn earliest(&self) -> Moment
        ensures { result ≡ earliest_expiration (sections self.now) };
}
