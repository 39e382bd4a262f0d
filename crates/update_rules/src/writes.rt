//! When a write is refused, whose elements are written one after another.
ghost use Rattle.std.specs.Prelude.{◌≡◌, ◌-◌, ◌^◌, ◌<◌, max, length, IfOk};
ghost use Rattle.ckpt_types.specs.Sections.{Rises, present, memory_used};
ghost use Rattle.ckpt_types.specs.Updates.{element_written, elements_written, first_place};
ghost use Rattle.update_rules.specs.Told.{answer_with};
ghost use Rattle.update_rules.specs.Writes.{with_elements, element_end, end_in, last_end_in, measured};

use crate::present::{find_present, size_present};
use crate::refused::{Refused, refuse};
use ckpt_types::{AisError, CreationAttributes, IoElement, Moment, Sections, totals};

/// Refuses a write with its first element that is refused over what the elements before it leave. Where none is, it
/// tells where the section of the first element stands.
#[inline(always)]
pub(crate) fn check_write<S: Sections>(
    attrs: &CreationAttributes,
    sections: &S,
    elements: &[IoElement],
    now: Moment,
) -> Result<usize, Refused>
    requires few { length elements.now < 2 ^ 32 }
    requires in_order { Rises (S.sections sections.now) }
    ensures { result ≡ answer_with (first_place elements.now (S.sections sections.now)) (elements_written attrs.now now 0 elements.now (present now (S.sections sections.now))) }
{
    // Most writes have one element.
    let [element] = elements else {
        return check_several(attrs, sections, elements, now);
    };
    let used = u128::from(totals(sections, now).bytes);
    let Some(place) = find_present(sections, element.id.as_slice(), now) else {
        return refuse(AisError::NotExist);
    };
    let size = sections.at(place).bytes.len() as u128;
    let end = end_of(element);
    if end > u128::from(attrs.max_section_size) {
        return refuse(AisError::InvalidParam);
    }
    if used + end.saturating_sub(size) > u128::from(attrs.checkpoint_size) {
        return refuse(AisError::NoSpace);
    }
    Ok(place)
}

/// The same of any number of elements.
#[inline(never)]
fn check_several<S: Sections>(
    attrs: &CreationAttributes,
    sections: &S,
    elements: &[IoElement],
    now: Moment,
) -> Result<usize, Refused>
    requires few { length elements.now < 2 ^ 32 }
    requires in_order { Rises (S.sections sections.now) }
    ensures { result ≡ answer_with (first_place elements.now (S.sections sections.now)) (elements_written attrs.now now 0 elements.now (present now (S.sections sections.now))) }
{
    let mut used = u128::from(totals(sections, now).bytes);
    for (place, element) in elements.iter().enumerate() {
        used = bytes_after(attrs, sections, &elements[..place], element, used, now)?;
    }
    Ok(place_of_first(sections, elements))
}

/// Where the section stands that the first element goes to, 0 where there is none.
fn place_of_first<S: Sections>(sections: &S, elements: &[IoElement]) -> usize
    ensures { result ≡ first_place elements.now (S.sections sections.now) }
{
    match elements.first() {
        Some(first) => sections.find(first.id.as_slice()).unwrap_or(0),
        None => 0,
    }
}

/// How many bytes the sections have together once an element is written, or its refusal.
fn bytes_after<S: Sections>(
    attrs: &CreationAttributes,
    sections: &S,
    earlier: &[IoElement],
    element: &IoElement,
    used: u128,
    now: Moment,
) -> Result<u128, Refused>
    requires few { length earlier.now < 2 ^ 32 }
    requires in_order { Rises (S.sections sections.now) }
    requires used { used ≡ memory_used (with_elements now earlier.now (present now (S.sections sections.now))) }
    requires small { used < 2 ^ 128 - 2 ^ 64 }
    ensures bytes { result ≡ measured (element_written attrs.now now (length earlier.now) element.now (with_elements now earlier.now (present now (S.sections sections.now)))) }
    ensures small { IfOk result (λ bytes. bytes < 2 ^ 64) }
{
    let index = earlier.len() as u32;
    let id = element.id.as_slice();
    let Some(size_before) = size_present(sections, id, now) else {
        return Err(Refused {
            error: AisError::NotExist,
            index,
        });
    };
    let size = size_after(u128::from(size_before), id, earlier);
    let end = end_of(element);
    if end > u128::from(attrs.max_section_size) {
        return Err(Refused {
            error: AisError::InvalidParam,
            index,
        });
    }
    let used = used + end.saturating_sub(size);
    if used > u128::from(attrs.checkpoint_size) {
        return Err(Refused {
            error: AisError::NoSpace,
            index,
        });
    }
    Ok(used)
}

/// How many bytes the section of that identifier has once the elements are written.
fn size_after(size_before: u128, id: &[u8], elements: &[IoElement]) -> u128
    ensures { result ≡ max size_before (last_end_in id.now elements.now) }
{
    let mut size = size_before;
    for element in elements {
        size = size_with(size, id, element);
    }
    size
}

/// How many bytes the section of that identifier has once an element is written.
fn size_with(size: u128, id: &[u8], element: &IoElement) -> u128
    ensures { result ≡ max size (end_in id.now element.now) }
{
    let end = end_of(element);
    // Most elements end within their section, and then it does not matter whose they are.
    if end > size && element.id.as_slice() == id {
        end
    } else {
        size
    }
}

/// Where an element's data ends in its section.
fn end_of(element: &IoElement) -> u128
    ensures { result ≡ element_end element.now }
{
    u128::from(element.offset) + element.bytes.as_slice().len() as u128
}
