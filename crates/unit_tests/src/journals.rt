//! A node with its journal: what was done to it stands there, with tickets and replies; and a cell may be handed to a thread.
use crate::cluster::{ATTRIBUTES, open_as};
use crate::rows::{holds, met};
use crate::tickets::is_handed;
use cluster_record::Record;
use node_core::{Lent, Node};
use node_msgs::{NodeChange, Reply, Request};
use shared_nodes::{Journal, JournalEntry, Kept, NodeCell, NodeStep};
use std::alloc::{AllocError, Global};
use std::process::Abort;

/// Adds a replica of the first checkpoint, with the fourth ticket. Whether that may come, and is done.
fn adds(cell: &mut NodeCell, alloc: Global, seen: &Record, lent: &mut Lent) -> bool {
    let change = NodeChange::Add(1, 1);
    if cell.spare() == 0 || !cell.node().change_fits(seen, &change, lent) {
        return false;
    }
    cell.change(alloc, seen, &change, 4, Kept::Nothing, lent)
        .is_ok()
}

/// Asks for a replica of the second checkpoint, of which there is none, with the sixth ticket.
fn asks(cell: &mut NodeCell, alloc: Global, seen: &Record, lent: &mut Lent) -> bool {
    let request = Request::Status(2);
    if cell.spare() == 0 || !cell.node().fits(seen, &request, lent) {
        return false;
    }
    let reply = cell.serve(alloc, seen, &request, 6, Kept::Nothing, lent);
    matches!(reply, Reply::NoReplica)
}

/// What is done to the cell: an addition, and a request that finds no replica.
fn steps(rt: &impl Abort, alloc: Global, seen: &Record, cell: &mut NodeCell) {
    let mut lent = Lent::nothing();
    holds(rt, 1, adds(cell, alloc, seen, &mut lent));
    holds(rt, 2, asks(cell, alloc, seen, &mut lent));
    holds(rt, 3, !adds(cell, alloc, seen, &mut lent));
    holds(rt, 4, cell.spare() == 1);
    holds(rt, 5, is_handed(cell));
}

fn is_addition(entry: &JournalEntry) -> bool {
    entry.ticket == 4 && matches!(entry.step, NodeStep::Changed(NodeChange::Add(1, 1)))
}

fn is_status(entry: &JournalEntry) -> bool {
    entry.ticket == 6
        && matches!(
            entry.step,
            NodeStep::Served(Request::Status(2), Reply::NoReplica)
        )
}

/// Whether the journal has just these two entries.
fn has_both(journal: &Journal) -> bool {
    if journal.len() != 2 {
        return false;
    }
    is_addition(journal.at(0)) && is_status(journal.at(1))
}

/// Whether the parts of the cell are the node with its replica, and the journal of both.
fn comes_apart(cell: NodeCell) -> bool {
    let (node, journal) = cell.into_parts();
    node.replica(1).is_some() && has_both(&journal)
}

/// A cell of the first node, with room for three entries.
fn cell_of(alloc: Global) -> Result<NodeCell, AllocError> {
    let node = Node::new(alloc, 0)?;
    let opening = node.copy(alloc)?;
    Ok(NodeCell::new(opening, node, Journal::reserve(alloc, 3)?))
}

fn is_kept(rt: &impl Abort, alloc: Global, seen: &Record) -> Result<bool, AllocError> {
    let mut cell = cell_of(alloc)?;
    steps(rt, alloc, seen, &mut cell);
    Ok(comes_apart(cell))
}

fn steps_are_kept(rt: &impl Abort, alloc: Global, seen: &mut Record) -> Result<(), AllocError> {
    open_as(seen, alloc, 3, b"a", Some(ATTRIBUTES))?;
    met(rt, 6, is_kept(rt, alloc, seen));
    Ok(())
}

#[test]
fn a_journal_has_what_was_done_to_its_node(rt: HostRuntime) -> Result<(), AllocError> {
    let mut seen = Record::new(rt.alloc(), 2)?;
    steps_are_kept(&rt, rt.alloc(), &mut seen)
}
