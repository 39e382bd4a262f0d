//! Whether the same is told beside the ends of two calls.
ghost use Rattle.std.specs.Prelude.{◌≡◌, Decides};
ghost use Rattle.ckpt_types.specs.declared.calls.AsyncKind.TheVariants as kinds;
ghost use Rattle.node_msgs.specs.declared.details.Details.TheVariants as details;

use crate::ends::same_outcome;
use crate::items::{Alike, same_items, same_pieces};
use ckpt_types::{AsyncKind, Callback, CheckpointDescriptor, Elements, Pieces, SectionDescriptor};
use node_msgs::Details;

/// Whether the same is told.
pub(crate) fn same_details(one: &Details, other: &Details) -> bool
    ensures { Decides result (one.now ≡ other.now) }
{
    match other {
        Details::Nothing => matches!(one, Details::Nothing),
        Details::Pieces(pieces) => has_pieces(one, pieces),
        Details::Section(section) => has_section(one, section.value()),
        Details::Status(status) => has_status(one, status.value()),
        Details::Callbacks(callbacks) => has_callbacks(one, callbacks.value()),
    }
}

fn has_pieces(told: &Details, pieces: &Pieces) -> bool
    ensures { Decides result (told.now ≡ details.Pieces pieces.now) }
{
    match told {
        Details::Pieces(other) => same_pieces(other, pieces),
        _ => false,
    }
}

fn has_section(told: &Details, section: &SectionDescriptor) -> bool
    ensures { Decides result (told.now ≡ details.Section section.now) }
{
    match told {
        Details::Section(other) => same_section(other.value(), section),
        _ => false,
    }
}

fn same_section(one: &SectionDescriptor, other: &SectionDescriptor) -> bool
    ensures { Decides result (one.now ≡ other.now) }
{
    if *one != *other {
        return false;
    }
    true
}

fn has_status(told: &Details, status: &CheckpointDescriptor) -> bool
    ensures { Decides result (told.now ≡ details.Status status.now) }
{
    match told {
        Details::Status(other) => same_status(other.value(), status),
        _ => false,
    }
}

fn same_status(one: &CheckpointDescriptor, other: &CheckpointDescriptor) -> bool
    ensures { Decides result (one.now ≡ other.now) }
{
    if one.attributes != other.attributes {
        return false;
    }
    if one.number_of_sections != other.number_of_sections {
        return false;
    }
    one.memory_used == other.memory_used
}

fn has_callbacks(told: &Details, callbacks: &Elements<Callback>) -> bool
    ensures { Decides result (told.now ≡ details.Callbacks callbacks.now) }
{
    match told {
        Details::Callbacks(other) => same_items(other.value().as_slice(), callbacks.as_slice()),
        _ => false,
    }
}

impl Alike for Callback {
    fn is_like(&self, other: &Callback) -> bool {
        if !same_kind(self.kind, other.kind) {
            return false;
        }
        if self.invocation != other.invocation {
            return false;
        }
        same_outcome(&self.outcome, &other.outcome)
    }
}

fn same_kind(one: AsyncKind, other: AsyncKind) -> bool
    ensures { Decides result (one ≡ other) }
{
    match other {
        AsyncKind::Open(place) => matches!(one, AsyncKind::Open(other) if other == place),
        AsyncKind::Sync => matches!(one, AsyncKind::Sync),
    }
}
