//! What a node sees of the record.
ghost use Rattle.std.specs.Prelude.{◌≡◌, ◌==◌, ℕ, not, slice_index};
ghost use Rattle.node_core.specs.Seen.{record_seen, is_complete, entry_seen};
ghost use Rattle.node_core.specs.Serving.{attributes_seen};
ghost use Rattle.cluster_record.specs.RecordState.{entry_of, attributes_now};

use ckpt_types::{CkptId, CreationAttributes, NODES_MAX, NodeId};
use cluster_record::{Entry, Record};

/// Whether the record has a node complete for a checkpoint.
#[inline(always)]
pub(crate) fn is_complete(seen: &Record, ckpt: CkptId, number: NodeId) -> bool
    ensures { result ≡ is_complete (record_seen seen.now ckpt number) }
{
    match seen.entry(ckpt) {
        None => false,
        Some(entry) => has_node(&entry.complete, number),
    }
}

// Whether a node is among those with an incarnation.
#[inline(always)]
fn has_node(complete: &[u32; NODES_MAX], number: NodeId) -> bool
    ensures { result ≡ not (slice_index complete.now number == 0) }
{
    match complete.get(number as usize) {
        None => false,
        Some(incarnation) => *incarnation != 0,
    }
}

/// The attributes of a checkpoint as they are now, for whichever node it is; where the checkpoint is gone, these.
pub(crate) fn attributes_seen(
    seen: &Record,
    ckpt: CkptId,
    own: &CreationAttributes,
) -> CreationAttributes
    ensures { (r : ℕ) → result ≡ attributes_seen (entry_seen r (entry_of ckpt seen.now.entries)) own.now }
{
    match seen.entry(ckpt) {
        None => *own,
        Some(entry) => attributes_now(entry),
    }
}

// The attributes of an entry, with the retention as it is set now.
fn attributes_now(entry: &Entry) -> CreationAttributes
    ensures { result ≡ attributes_now entry.now }
{
    let mut attributes = entry.attributes;
    attributes.retention_duration = entry.retention;
    attributes
}
