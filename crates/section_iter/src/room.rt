//! The room that an iteration takes before it begins.
ghost use Rattle.std.specs.Prelude.{◌≡◌};
ghost use Rattle.section_iter.specs.Room.{room_declared};

use ckpt_types::CreationAttributes;

/// For what an iteration has room.
#[derive(Clone, Copy, Debug, PartialEq, Eq)]
pub struct Room {
    /// For so many identifiers.
    pub ids: u32,
    /// Each of at most so many bytes.
    pub id_size: u64,
}

impl Room {
    /// Room for the identifiers of as many sections, and as long ones, as the attributes declare.
    pub fn declared(attrs: &CreationAttributes) -> Room
        ensures { result ≡ room_declared attrs.now }
    {
        Room {
            ids: attrs.max_sections,
            id_size: attrs.max_section_id_size,
        }
    }
}
