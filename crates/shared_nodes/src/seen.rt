//! What a node saw of the record at a step.
ghost use Rattle.std.specs.Prelude.{◌≡◌, Option, Some, None, not, ◌==◌, slice_index};
ghost use Rattle.cluster_record.specs.RecordState.{entry_of};
ghost use Rattle.node_core.specs.Changing.{ckpt_of_change, seen_for_change};
ghost use Rattle.node_core.specs.Nodes.{seen_for};
ghost use Rattle.node_core.specs.Seen.{entry_seen, record_seen};
ghost use Rattle.shared_nodes.specs.SeenView.{entry_shown, part_shown};

use ckpt_types::{CkptId, CreationAttributes, Moment, NODES_MAX, NodeId};
use cluster_record::{Entry, Record};
use node_core::Node;
use node_msgs::{NodeChange, Request};
use std::marker::Model;

/// What the record showed of a checkpoint.
#[derive(Clone, Copy)]
pub(crate) struct SeenEntry {
    attributes: CreationAttributes,
    retention: i64,
    generation: u64,
    made: Moment,
    complete: bool,
}

/// What the record showed of the checkpoint of a step: the moment, and its entry where it had one.
#[derive(Drop)]
pub struct Seen {
    moment: Moment,
    entry: Option<SeenEntry>,
}

impl Model for Seen {
    ghost use Rattle.node_core.specs.Seen.{RecordSeen};

    ghost Value = { RecordSeen };

    ghost use Rattle.shared_nodes.specs.SeenView.{seen_shown};

    ghost view = { seen_shown };
}

impl Seen {
    /// What a step about a checkpoint sees at a node of this number.
    pub fn of(seen: &Record, ckpt: CkptId, number: NodeId) -> Seen
        ensures { result ≡ record_seen seen.now ckpt number }
    {
        Seen {
            moment: seen.now(),
            entry: entry_at(seen, ckpt, number),
        }
    }

    /// What a step sees that is about no checkpoint.
    pub fn of_none(seen: &Record) -> Seen
        ensures { result ≡ record { moment = seen.now.moment; entry = None } }
    {
        Seen {
            moment: seen.now(),
            entry: None,
        }
    }

    /// What a request sees at a node.
    pub fn for_request(seen: &Record, request: &Request, node: &Node) -> Seen
        ensures { result ≡ seen_for seen.now node.now request.now }
    {
        Seen::of(seen, request.ckpt(), node.number())
    }

    /// What a change sees at a node.
    pub fn for_change(seen: &Record, change: &NodeChange, node: &Node) -> Seen
        ensures { result ≡ seen_for_change seen.now node.now change.now }
    {
        match ckpt_of_change(change) {
            None => Seen::of_none(seen),
            Some(ckpt) => Seen::of(seen, ckpt, node.number()),
        }
    }
}

// What the record shows of a checkpoint to a node of this number.
fn entry_at(seen: &Record, ckpt: CkptId, number: NodeId) -> Option<SeenEntry>
    ensures { entry_shown result ≡ entry_seen number (entry_of ckpt seen.now.entries) }
{
    let Some(entry) = seen.entry(ckpt) else {
        return None;
    };
    Some(part_of(entry, number))
}

// What an entry shows to a node of this number.
fn part_of(entry: &Entry, number: NodeId) -> SeenEntry
    ensures { Some (part_shown result) ≡ entry_seen number (Some entry.now) }
{
    SeenEntry {
        attributes: entry.attributes,
        retention: entry.retention,
        generation: entry.generation,
        made: entry.made,
        complete: has_node(&entry.complete, number),
    }
}

// Whether a node is among those with an incarnation.
fn has_node(complete: &[u32; NODES_MAX], number: NodeId) -> bool
    ensures { result ≡ not (slice_index complete.now number == 0) }
{
    match complete.get(number as usize) {
        None => false,
        Some(incarnation) => *incarnation != 0,
    }
}

// The checkpoint that a change is about, if it is about one.
fn ckpt_of_change(change: &NodeChange) -> Option<CkptId>
    ensures { result ≡ ckpt_of_change change.now }
{
    match change {
        NodeChange::Add(ckpt, _) => Some(*ckpt),
        NodeChange::Lend(ckpt) => Some(*ckpt),
        NodeChange::Take(ckpt, _) => Some(*ckpt),
        NodeChange::Stage(_, ckpt, _) => Some(*ckpt),
        NodeChange::Lead(ckpt, _) => Some(*ckpt),
        NodeChange::Break(ckpt) => Some(*ckpt),
        NodeChange::Drop(ckpt) => Some(*ckpt),
        NodeChange::Clear => None,
    }
}
