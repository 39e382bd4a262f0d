//! Which sections an iteration goes over, by the choice that it was begun with.
ghost use Rattle.std.specs.Prelude.{◌≡◌, ◌*◌, ◌^◌, ◌<◌, ◌≤◌, ◌&&◌, All, length, vec_capacity};
ghost use Rattle.ckpt_types.specs.Reads.{chooses, chosen, is_corrupted};
ghost use Rattle.ckpt_types.specs.Sections.{section_of, is_present};
ghost use Rattle.section_iter.specs.Ids.{ids_in, AreIds};

use crate::ids::push_id;
use crate::room::Room;
use ckpt_types::{
    Choice, Moment, NEVER, SECTIONS_ANY, SECTIONS_CORRUPTED, SECTIONS_FOREVER,
    SECTIONS_GEQ_EXPIRATION_TIME, SECTIONS_LEQ_EXPIRATION_TIME, SectionRef, SectionState, Sections,
};

/// Keeps the identifiers of the sections that are chosen, within the room that was taken.
pub(crate) fn keep_chosen<S: Sections>(
    bytes: &mut Vec<u8>,
    ends: &mut Vec<u32>,
    room: Room,
    sections: &S,
    choice: &Choice,
    now: Moment,
)
    requires few { length (S.sections sections.now) ≤ room.ids }
    requires short { All (λ s. length s.id ≤ room.id_size) (S.sections sections.now) }
    requires ends_taken { room.ids ≤ vec_capacity ends.old }
    requires bytes_taken { room.ids * room.id_size ≤ vec_capacity bytes.old }
    requires small { room.ids * room.id_size < 2 ^ 32 }
    ensures kept { AreIds ends.new.items bytes.new.items }
    ensures ids { ids_in ends.new.items bytes.new.items ≡ chosen choice.now now (S.sections sections.now) }
    ensures ends_taken { room.ids ≤ vec_capacity ends.new }
    ensures bytes_taken { room.ids * room.id_size ≤ vec_capacity bytes.new }
{
    bytes.clear();
    ends.clear();
    for place in 0..sections.len() {
        let section = sections.at(place);
        if is_chosen(choice, &section, now) {
            push_id(bytes, ends, *section.id);
        }
    }
}

/// Whether the section is present and the choice takes it.
fn is_chosen(choice: &Choice, section: &SectionRef<'_>, now: Moment) -> bool
    ensures { result ≡ (is_present now (section_of section.now) && chooses choice.now (section_of section.now)) }
{
    section.is_present(now) && chooses(choice, section)
}

/// Whether the choice takes the section.
fn chooses(choice: &Choice, section: &SectionRef<'_>) -> bool
    ensures { result ≡ chooses choice.now (section_of section.now) }
{
    match choice.chosen {
        SECTIONS_FOREVER => section.expiration == NEVER,
        SECTIONS_LEQ_EXPIRATION_TIME => section.expiration <= choice.time,
        SECTIONS_GEQ_EXPIRATION_TIME => choice.time <= section.expiration,
        SECTIONS_CORRUPTED => is_corrupted(section.state),
        chosen => chosen == SECTIONS_ANY,
    }
}

fn is_corrupted(state: SectionState) -> bool
    ensures { result ≡ is_corrupted state }
{
    match state {
        SectionState::Valid => false,
        SectionState::Corrupted => true,
    }
}
