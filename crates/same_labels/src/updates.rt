//! Whether two updates, or what two reads ask for, are the same.
ghost use Rattle.std.specs.Prelude.{◌≡◌, Decides};
ghost use Rattle.ckpt_types.specs.declared.update.NewId.TheVariants as ids;
ghost use Rattle.ckpt_types.specs.declared.update.Update.TheVariants as updates;

use crate::items::{Alike, same_items, same_text};
use ckpt_types::{Bytes, IoElement, IoVector, Moment, NewId, ReadElement, ReadVector, Update};

/// Whether both updates are the same.
pub(crate) fn same_update(one: &Update, other: &Update) -> bool
    ensures { Decides result (one.now ≡ other.now) }
{
    match other {
        Update::Write(elements) => is_write(one, elements),
        Update::Overwrite(id, bytes) => is_overwrite(one, id, bytes),
        Update::Create(id, expiration, bytes) => is_creation(one, id, *expiration, bytes),
        Update::Delete(id) => is_deletion(one, id),
        Update::SetExpiration(id, expiration) => is_expiration(one, id, *expiration),
        Update::Nothing => matches!(one, Update::Nothing),
    }
}

fn is_write(update: &Update, elements: &IoVector) -> bool
    ensures { Decides result (update.now ≡ updates.Write elements.now) }
{
    match update {
        Update::Write(other) => same_items(other.as_slice(), elements.as_slice()),
        _ => false,
    }
}

fn is_overwrite(update: &Update, id: &Bytes, bytes: &Bytes) -> bool
    ensures { Decides result (update.now ≡ updates.Overwrite id.now bytes.now) }
{
    let Update::Overwrite(other, written) = update else {
        return false;
    };
    if !same_text(other, id) {
        return false;
    }
    same_text(written, bytes)
}

fn is_creation(update: &Update, id: &NewId, expiration: Moment, bytes: &Bytes) -> bool
    ensures { Decides result (update.now ≡ updates.Create id.now expiration bytes.now) }
{
    let Update::Create(other, until, data) = update else {
        return false;
    };
    if *until != expiration {
        return false;
    }
    if !same_new_id(other, id) {
        return false;
    }
    same_text(data, bytes)
}

fn is_deletion(update: &Update, id: &Bytes) -> bool
    ensures { Decides result (update.now ≡ updates.Delete id.now) }
{
    match update {
        Update::Delete(other) => same_text(other, id),
        _ => false,
    }
}

fn is_expiration(update: &Update, id: &Bytes, expiration: Moment) -> bool
    ensures { Decides result (update.now ≡ updates.SetExpiration id.now expiration) }
{
    let Update::SetExpiration(other, until) = update else {
        return false;
    };
    if *until != expiration {
        return false;
    }
    same_text(other, id)
}

fn same_new_id(one: &NewId, other: &NewId) -> bool
    ensures { Decides result (one.now ≡ other.now) }
{
    match other {
        NewId::Given(id) => is_given(one, id),
        NewId::Generated => matches!(one, NewId::Generated),
    }
}

fn is_given(new: &NewId, id: &Bytes) -> bool
    ensures { Decides result (new.now ≡ ids.Given id.now) }
{
    match new {
        NewId::Given(other) => same_text(other, id),
        NewId::Generated => false,
    }
}

/// Whether both reads ask for the same.
pub(crate) fn same_reads(one: &ReadVector, other: &ReadVector) -> bool
    ensures { Decides result (one.now ≡ other.now) }
{
    same_items(one.as_slice(), other.as_slice())
}

impl Alike for IoElement {
    fn is_like(&self, other: &IoElement) -> bool {
        if self.offset != other.offset {
            return false;
        }
        if !same_text(&self.id, &other.id) {
            return false;
        }
        same_text(&self.bytes, &other.bytes)
    }
}

impl Alike for ReadElement {
    fn is_like(&self, other: &ReadElement) -> bool {
        if self.offset != other.offset {
            return false;
        }
        if self.len != other.len {
            return false;
        }
        same_text(&self.id, &other.id)
    }
}
