//! Sections whose bytes stand one behind another in one buffer, with a head for each.
ghost use Rattle.std.specs.Prelude.{◌≡◌, ◌+◌, ◌≤◌, ◌<◌, ℕ, List, [], ◌∷◌, ◌++◌, length, vec_capacity};
ghost use Rattle.ckpt_types.specs.Sections.{Rises, place_of, memory_used, earliest_expiration, section_of};
ghost use Rattle.snap_copy.specs.Heads.{section_in, sections_in, IsWithin, AreWithin};

use ckpt_types::{Moment, NEVER, SectionId, SectionRef, SectionState, Sections, extend_reserved};

/// What is kept of a section beside its bytes, and where these stand.
#[derive(Drop)]
pub(crate) struct Head {
    pub id: SectionId,
    /// Where its bytes begin in the buffer.
    pub start: usize,
    /// Where they end.
    pub end: usize,
    pub expiration: Moment,
    pub state: SectionState,
    pub last_update: Moment,
}

/// The section of a head.
pub(crate) fn section_in<'a>(bytes: &'a [u8], head: &'a Head) -> SectionRef<'a>
    requires { IsWithin (length bytes.now) head.now }
    ensures { section_of result ≡ section_in bytes.now head.now }
{
    SectionRef {
        id: &head.id,
        bytes: &bytes[head.start..head.end],
        expiration: head.expiration,
        state: head.state,
        last_update: head.last_update,
    }
}

/// Puts copies of all sections in the place of those that were kept. It takes no memory.
pub(crate) fn copy_in<S: Sections>(bytes: &mut Vec<u8>, heads: &mut Vec<Head>, from: &S)
    requires bytes_room { memory_used (S.sections from.now) ≤ vec_capacity bytes.old }
    requires heads_room { length (S.sections from.now) ≤ vec_capacity heads.old }
    ensures sections { sections_in bytes.new.items heads.new.items ≡ S.sections from.now }
    ensures rises { Rises (S.sections from.now) }
    ensures within { AreWithin (length bytes.new.items) heads.new.items }
    ensures bytes_len { length bytes.new.items ≡ memory_used (S.sections from.now) }
    ensures bytes_capacity { vec_capacity bytes.old ≤ vec_capacity bytes.new }
    ensures heads_capacity { vec_capacity heads.old ≤ vec_capacity heads.new }
{
    bytes.clear();
    heads.clear();
    let count = from.len();
    for place in 0..count {
        let section = from.at(place);
        add(bytes, heads, &section);
    }
}

/// Puts a copy of a section behind the others.
fn add(bytes: &mut Vec<u8>, heads: &mut Vec<Head>, section: &SectionRef<'_>)
    requires bytes_room { length bytes.old.items + length section.now.bytes.now ≤ vec_capacity bytes.old }
    requires heads_room { length heads.old.items < vec_capacity heads.old }
    requires within { AreWithin (length bytes.old.items) heads.old.items }
    ensures sections { sections_in bytes.new.items heads.new.items ≡ sections_in bytes.old.items heads.old.items ++ section_of section.now ∷ [] }
    ensures within { AreWithin (length bytes.new.items) heads.new.items }
    ensures bytes_len { length bytes.new.items ≡ length bytes.old.items + length section.now.bytes.now }
    ensures heads_len { length heads.new.items ≡ length heads.old.items + 1 }
    ensures bytes_capacity { vec_capacity bytes.old ≤ vec_capacity bytes.new }
    ensures heads_capacity { vec_capacity heads.new ≡ vec_capacity heads.old }
{
    let start = bytes.len();
    extend_reserved(bytes, section.bytes);
    heads.push_reserved(head_of(section, start, bytes.len()));
}

/// The head of a section whose bytes stand from a place to another.
fn head_of(section: &SectionRef<'_>, start: usize, end: usize) -> Head
    ensures { result ≡ record { id = section.now.id.now; start = start; end = end; expiration = section.now.expiration; state = section.now.state; last_update = section.now.last_update } }
{
    Head {
        id: *section.id,
        start,
        end,
        expiration: section.expiration,
        state: section.state,
        last_update: section.last_update,
    }
}

/// The place of the section of that identifier, whatever the bytes are.
pub(crate) fn find(heads: &[Head], id: &[u8]) -> Option<usize>
    ensures { (bytes : List ℕ) → result ≡ place_of id.now (sections_in bytes heads.now) }
{
    for place in 0..heads.len() {
        if heads[place].id.as_slice() == id {
            return Some(place);
        }
    }
    None
}

/// The least expiration of the sections, `NEVER` where there is none, whatever the bytes are.
pub(crate) fn earliest(heads: &[Head]) -> Moment
    ensures { (bytes : List ℕ) → result ≡ earliest_expiration (sections_in bytes heads.now) }
{
    let mut earliest = NEVER;
    for head in heads {
        earliest = earliest.min(head.expiration);
    }
    earliest
}
