//! What a `show` line lists: the replicas that the nodes keep of a checkpoint.
ghost use Rattle.std.specs.Prelude.{◌≡◌, ◌<◌, ◌≤◌, ◌+◌, ◌++◌, ◌∷◌, [], IfOk, OnOk, OnErr, length, map, take};
ghost use Rattle.ckpt_types.specs.Sections.{section_of, present};
ghost use Rattle.ckpt_types.specs.Limits.{listed_bytes_max, nodes_max};
ghost use Rattle.ckpt_machine.specs.Listing.{section_listed};
ghost use Rattle.world_core.specs.Listing.{world_listing};
ghost use Rattle.ckpt_machine.specs.NodeListing.{kept_slot_listed, kept_replica_listed, node_listed, nodes_listed, made_listed};
ghost use Rattle.world_core.specs.Happenings.{Adds, TellsReplicas};

use crate::world::World;
use ckpt_types::{
    Bytes, CkptId, LISTED_BYTES_MAX, Moment, NODES_MAX, NodeId, SectionRef, Sections, Vector,
};
use cluster_nodes::Nodes;
use cluster_record::{Entry, is_active};
use replica::Replica;
use run_labels::{
    Label, RunLog, ShownReplica, ShownReplicas, ShownSection, ShownSections, ShownSlot,
};
use section_store::Store;
use stage_slot::Slot;
use std::alloc::{AllocError, Global};
use weak_marks::Marks;

impl World {
    /// The replicas of a checkpoint are told. Want of memory leaves the log as it was.
    pub(crate) fn show(
        &self,
        alloc: Global,
        ckpt: CkptId,
        log: &mut RunLog,
    ) -> Result<(), AllocError>
        requires { 1 ≤ log.old.spare }
        ensures ok { OnOk result (Adds log.old log.new (TellsReplicas ckpt self.now self.now)) }
        ensures err { OnErr result (log.new.labels ≡ log.old.labels) }
    {
        let replicas = self.listing(alloc, ckpt)?;
        log.push(Label::Shown(ckpt, replicas));
        Ok(())
    }

    // The replicas of a checkpoint; none where it is gone or in the making.
    fn listing(&self, alloc: Global, ckpt: CkptId) -> Result<Option<ShownReplicas>, AllocError>
        ensures { IfOk result (λ replicas. replicas ≡ world_listing self.now ckpt) }
    {
        match self.cluster.entry(ckpt) {
            None => Ok(None),
            Some(entry) => list_made(alloc, &self.nodes, ckpt, entry, self.cluster.now()),
        }
    }
}

fn list_made(
    alloc: Global,
    nodes: &Nodes,
    ckpt: CkptId,
    entry: &Entry,
    now: Moment,
) -> Result<Option<ShownReplicas>, AllocError>
    requires { length entry.now.complete ≡ nodes_max }
    ensures { IfOk result (λ replicas. replicas ≡ made_listed nodes.now ckpt entry.now now entry.now.making) }
{
    match entry.making {
        Some(_) => Ok(None),
        None => Ok(Some(list_replicas(alloc, nodes, ckpt, entry, now)?)),
    }
}

fn list_replicas(
    alloc: Global,
    nodes: &Nodes,
    ckpt: CkptId,
    entry: &Entry,
    now: Moment,
) -> Result<ShownReplicas, AllocError>
    requires { length entry.now.complete ≡ nodes_max }
    ensures { IfOk result (λ replicas. replicas ≡ nodes_listed nodes.now ckpt entry.now now (length entry.now.complete)) }
{
    let mut replicas = Vec::with_capacity(alloc, NODES_MAX)?;
    for r in 0..NODES_MAX {
        add_node(&mut replicas, alloc, nodes, ckpt, entry, r as NodeId, now)?;
    }
    Ok(Vector::from_vec(replicas))
}

// The replica of one node, where it is complete.
fn add_node(
    replicas: &mut Vec<ShownReplica>,
    alloc: Global,
    nodes: &Nodes,
    ckpt: CkptId,
    entry: &Entry,
    r: NodeId,
    now: Moment,
) -> Result<(), AllocError>
    requires { r < nodes_max }
    ensures listed { OnOk result (replicas.new.items ≡ replicas.old.items ++ node_listed nodes.now ckpt entry.now now r) }
    ensures few { OnOk result (length replicas.new.items ≤ length replicas.old.items + 1) }
{
    if entry.complete[r as usize] == 0 {
        return Ok(());
    }
    let Some(replica) = nodes.find(r, ckpt) else {
        return Ok(());
    };
    let shown = list_replica(alloc, r, entry.active, replica, now)?;
    replicas.push(shown)?;
    Ok(())
}

fn list_replica(
    alloc: Global,
    r: NodeId,
    active: Option<NodeId>,
    replica: &Replica,
    now: Moment,
) -> Result<ShownReplica, AllocError>
    ensures { IfOk result (λ shown. shown ≡ kept_replica_listed now active r replica.now) }
{
    let sections = list_sections(alloc, replica.store(), now)?;
    Ok(ShownReplica {
        node: r,
        active: is_active(active, r),
        generation: replica.generation(),
        count: replica.count(),
        slot: list_slot(replica.slot(), replica.marks()),
        sections,
    })
}

fn list_slot(slot: &Slot, marks: &Marks) -> ShownSlot
    ensures { result ≡ kept_slot_listed slot.now marks.now }
{
    match slot.owner() {
        Some(owner) => ShownSlot::Held(owner),
        None => match marks.call() {
            Some(call) => ShownSlot::Mark(call),
            None => ShownSlot::Free,
        },
    }
}

// The sections that are present.
fn list_sections(alloc: Global, store: &Store, now: Moment) -> Result<ShownSections, AllocError>
    ensures { IfOk result (λ sections. sections ≡ map section_listed (present now store.now.sections)) }
{
    let _declared = declared(store);
    let mut sections = Vec::new(alloc);
    for place in 0..store.len() {
        add_section(&mut sections, alloc, &store.at(place), now)?;
    }
    Ok(Vector::from_vec(sections))
}

// No more sections stand than were declared.
fn declared(store: &Store) -> u32
    ensures { length store.now.sections ≤ result }
{
    store.attributes().max_sections
}

// A section, where it is present.
fn add_section(
    sections: &mut Vec<ShownSection>,
    alloc: Global,
    section: &SectionRef<'_>,
    now: Moment,
) -> Result<(), AllocError>
    ensures { OnOk result (sections.new.items ≡ sections.old.items ++ map section_listed (present now (section_of section.now ∷ []))) }
{
    if !section.is_present(now) {
        return Ok(());
    }
    let shown = list_section(alloc, section)?;
    sections.push(shown)?;
    Ok(())
}

fn list_section(alloc: Global, section: &SectionRef<'_>) -> Result<ShownSection, AllocError>
    ensures { IfOk result (λ shown. shown ≡ section_listed (section_of section.now)) }
{
    let first = Bytes::from_slice(alloc, front(section.bytes))?;
    Ok(ShownSection {
        descriptor: section.describe(),
        first,
    })
}

// The first bytes, as many as are listed.
fn front(bytes: &[u8]) -> &[u8]
    ensures { result.now ≡ take listed_bytes_max bytes.now }
{
    if bytes.len() <= LISTED_BYTES_MAX {
        return bytes;
    }
    &bytes[..LISTED_BYTES_MAX]
}
