//! Whether sections keep to what a checkpoint declares.
ghost use Rattle.std.specs.Prelude.{◌≡◌, ◌≤◌, All, Decides, length};
ghost use Rattle.ckpt_types.specs.Sections.{Fits, memory_used, section_of};
ghost use Rattle.node_core.specs.Keeping.{KeepsTo};

use ckpt_types::{CreationAttributes, SectionRef, Sections};

/// Whether sections keep to what is declared: they are not too many, none is too large or has too long an identifier,
/// all together are not too large, and a lone one is the default section.
pub(crate) fn keeps_to<S: Sections>(sections: &S, declared: &CreationAttributes) -> bool
    ensures { Decides result (Fits declared.now (S.sections sections.now)) }
{
    if sections.len() > declared.max_sections as usize {
        return false;
    }
    if !each_keeps_to(sections, declared) {
        return false;
    }
    are_within(sections, declared.checkpoint_size)
}

fn each_keeps_to<S: Sections>(sections: &S, declared: &CreationAttributes) -> bool
    ensures { Decides result (All (KeepsTo declared.now) (S.sections sections.now)) }
{
    let count = sections.len();
    for place in 0..count {
        let section = sections.at(place);
        if !one_keeps_to(&section, declared) {
            return false;
        }
    }
    true
}

fn one_keeps_to(section: &SectionRef<'_>, declared: &CreationAttributes) -> bool
    ensures { Decides result (KeepsTo declared.now (section_of section.now)) }
{
    if section.bytes.len() as u64 > declared.max_section_size {
        return false;
    }
    if section.id.as_slice().len() as u64 > declared.max_section_id_size {
        return false;
    }
    declared.max_sections != 1 || section.id.as_slice().is_empty()
}

// Whether all bytes together are no more than so many.
fn are_within<S: Sections>(sections: &S, most: u64) -> bool
    ensures { Decides result (memory_used (S.sections sections.now) ≤ most) }
{
    let mut left = most;
    let count = sections.len();
    for place in 0..count {
        let section = sections.at(place);
        let size = section.bytes.len() as u64;
        if size > left {
            return false;
        }
        left -= size;
    }
    true
}
