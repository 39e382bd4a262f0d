//! When an update is refused, rule by rule.
ghost use Rattle.std.specs.Prelude.{◌≡◌, ◌+◌, ◌^◌, ◌<◌, ◌||◌, nat_le, nat_lt, length};
ghost use Rattle.ckpt_types.specs.Sections.{Rises, is_taken, present, memory_used};
ghost use Rattle.ckpt_types.specs.Updates.{outcome, section_created, section_deleted, expiration_set, overwritten, is_bad_id, new_id};
ghost use Rattle.update_rules.specs.Told.{check_answer, answer_with};
ghost use Rattle.update_rules.specs.Writes.{placed_first};

use crate::present::size_present;
use crate::refused::{Refused, refuse};
use crate::writes::check_write;
use ckpt_types::{
    AisError, CreationAttributes, GENERATED_ID_BYTES, Moment, NewId, Sections, Update, totals,
};
use moment_rules::expired;

/// Refuses an update that the rules refuse over the sections that are present at the moment. It takes no
/// memory and changes nothing.
pub fn check<S: Sections>(
    attrs: &CreationAttributes,
    sections: &S,
    update: &Update,
    now: Moment,
) -> Result<(), Refused>
    ensures { result ≡ check_answer (outcome attrs.now update.now now (S.sections sections.now)) }
{
    // The clause of `len` tells that the identifiers rise.
    let _count = sections.len();
    match update {
        Update::Write(vector) => match check_write(attrs, sections, vector.as_slice(), now) {
            Ok(_) => Ok(()),
            Err(refused) => Err(refused),
        },
        Update::Overwrite(id, bytes) => {
            check_overwrite(attrs, sections, id.as_slice(), bytes.as_slice(), now)
        }
        Update::Create(new, expiration, bytes) => {
            check_create(attrs, sections, new, *expiration, bytes.as_slice(), now)
        }
        Update::Delete(id) => check_delete(attrs, sections, id.as_slice(), now),
        Update::SetExpiration(id, expiration) => {
            check_expiration(attrs, sections, id.as_slice(), *expiration, now)
        }
        Update::Nothing => Ok(()),
    }
}

/// As `check`, and where nothing is refused it tells where the section stands that a write goes to first, so that it
/// need not be looked up again. Of any other update, and of a write of no element, it tells 0.
#[inline(always)]
pub fn check_placed<S: Sections>(
    attrs: &CreationAttributes,
    sections: &S,
    update: &Update,
    now: Moment,
) -> Result<usize, Refused>
    ensures { result ≡ answer_with (placed_first update.now (S.sections sections.now)) (outcome attrs.now update.now now (S.sections sections.now)) }
{
    if let Update::Write(vector) = update {
        // The clause of `len` tells that the identifiers rise.
        let _count = sections.len();
        return check_write(attrs, sections, vector.as_slice(), now);
    }
    match check(attrs, sections, update, now) {
        Ok(()) => Ok(0),
        Err(refused) => Err(refused),
    }
}

fn check_create<S: Sections>(
    attrs: &CreationAttributes,
    sections: &S,
    new: &NewId,
    expiration: Moment,
    bytes: &[u8],
    now: Moment,
) -> Result<(), Refused>
    requires in_order { Rises (S.sections sections.now) }
    requires few { length (S.sections sections.now) < 2 ^ 64 }
    ensures { result ≡ check_answer (section_created attrs.now new.now expiration bytes.now now (present now (S.sections sections.now))) }
{
    let len = bytes.len() as u64;
    if attrs.max_sections == 1 {
        return refuse(AisError::Exist);
    }
    if is_bad_id(attrs, new) || expired(expiration, now) || len > attrs.max_section_size {
        return refuse(AisError::InvalidParam);
    }
    if is_taken(sections, new, now) {
        return refuse(AisError::Exist);
    }
    if lacks_room(attrs, sections, len, now) {
        return refuse(AisError::NoSpace);
    }
    Ok(())
}

/// Whether the identifier is empty or too long, or too few bytes were declared for a generated one.
fn is_bad_id(attrs: &CreationAttributes, new: &NewId) -> bool
    ensures { result ≡ is_bad_id attrs.now new.now }
{
    match new {
        NewId::Given(id) => {
            let len = id.as_slice().len() as u64;
            len == 0 || len > attrs.max_section_id_size
        }
        NewId::Generated => attrs.max_section_id_size < GENERATED_ID_BYTES,
    }
}

/// Whether a section that is present has the identifier; none has one that the service makes.
fn is_taken<S: Sections>(sections: &S, new: &NewId, now: Moment) -> bool
    requires in_order { Rises (S.sections sections.now) }
    requires few { length (S.sections sections.now) < 2 ^ 64 }
    ensures { result ≡ is_taken (new_id new.now (present now (S.sections sections.now))) (present now (S.sections sections.now)) }
{
    match new {
        NewId::Given(id) => size_present(sections, id.as_slice(), now).is_some(),
        NewId::Generated => false,
    }
}

/// Whether there is no room for one section more, or none for its bytes.
fn lacks_room<S: Sections>(attrs: &CreationAttributes, sections: &S, len: u64, now: Moment) -> bool
    ensures { result ≡ (nat_le attrs.now.max_sections (length (present now (S.sections sections.now))) || nat_lt attrs.now.checkpoint_size (memory_used (present now (S.sections sections.now)) + len)) }
{
    let totals = totals(sections, now);
    attrs.max_sections as usize <= totals.count
        || u128::from(totals.bytes) + u128::from(len) > u128::from(attrs.checkpoint_size)
}

fn check_delete<S: Sections>(
    attrs: &CreationAttributes,
    sections: &S,
    id: &[u8],
    now: Moment,
) -> Result<(), Refused>
    requires in_order { Rises (S.sections sections.now) }
    ensures { result ≡ check_answer (section_deleted attrs.now id.now (present now (S.sections sections.now))) }
{
    if attrs.max_sections == 1 {
        return refuse(AisError::InvalidParam);
    }
    if size_present(sections, id, now).is_none() {
        return refuse(AisError::NotExist);
    }
    Ok(())
}

fn check_expiration<S: Sections>(
    attrs: &CreationAttributes,
    sections: &S,
    id: &[u8],
    expiration: Moment,
    now: Moment,
) -> Result<(), Refused>
    requires in_order { Rises (S.sections sections.now) }
    ensures { result ≡ check_answer (expiration_set attrs.now id.now expiration now (present now (S.sections sections.now))) }
{
    if attrs.max_sections == 1 {
        return refuse(AisError::InvalidParam);
    }
    if size_present(sections, id, now).is_none() {
        return refuse(AisError::NotExist);
    }
    if expired(expiration, now) {
        return refuse(AisError::InvalidParam);
    }
    Ok(())
}

fn check_overwrite<S: Sections>(
    attrs: &CreationAttributes,
    sections: &S,
    id: &[u8],
    bytes: &[u8],
    now: Moment,
) -> Result<(), Refused>
    requires in_order { Rises (S.sections sections.now) }
    ensures { result ≡ check_answer (overwritten attrs.now id.now bytes.now now (present now (S.sections sections.now))) }
{
    let Some(size) = size_present(sections, id, now) else {
        return refuse(AisError::NotExist);
    };
    let len = bytes.len() as u64;
    if len > attrs.max_section_size {
        return refuse(AisError::InvalidParam);
    }
    let bytes_before = u128::from(totals(sections, now).bytes);
    if bytes_before + u128::from(len) > u128::from(attrs.checkpoint_size) + u128::from(size) {
        return refuse(AisError::NoSpace);
    }
    Ok(())
}
