//! What an open gets of a checkpoint that is there.
ghost use Rattle.std.specs.Prelude.{◌≡◌};
ghost use Rattle.cluster_record.specs.DueOpen.{accepts};
ghost use Rattle.cluster_record.specs.Opening.{answer_of};

use crate::entries::Entry;
use crate::placement::adds;
use crate::record::{RecordRefused, held_by, plainly};
use ckpt_types::{AisError, CkptId, CreationAttributes, NodeId};

/// What the record answers to an open.
#[derive(Clone, Copy, PartialEq, Eq)]
pub enum OpenAnswer {
    /// The checkpoint was there, and the client has it open once more; and whether that adds a replica on the client's
    /// node, as it does where the checkpoint is collocated and not complete there.
    Opened(CkptId, bool),
    /// The checkpoint is in the making by the call.
    Made(CkptId),
    /// Nothing changed.
    Refused(RecordRefused),
}

/// What an open from this node gets of a checkpoint that has the name.
pub(crate) fn answer_of(
    entry: &Entry,
    attributes: &Option<CreationAttributes>,
    opener: NodeId,
) -> OpenAnswer
    ensures { result ≡ answer_of attributes.now opener entry.now }
{
    if let Some(call) = entry.making {
        return OpenAnswer::Refused(held_by(call));
    }
    if !accepts(entry, attributes) {
        return OpenAnswer::Refused(plainly(AisError::Exist));
    }
    let added = adds(&entry.attributes, opener, &entry.complete);
    OpenAnswer::Opened(entry.identity, added)
}

/// Whether the attributes asked for are the checkpoint's, the retention left aside; with none asked for, any are.
pub fn accepts(entry: &Entry, attributes: &Option<CreationAttributes>) -> bool
    ensures { result ≡ accepts attributes.now entry.now }
{
    match attributes {
        None => true,
        Some(attributes) => entry.attributes.same_but_retention(attributes),
    }
}
