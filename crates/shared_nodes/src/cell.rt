//! A node with its journal.
ghost use Rattle.std.specs.Prelude.{◌≡◌, ◌+◌, ◌≤◌, [], ◌∷◌, ◌++◌, IfOk, OnErr, OnOk};
ghost use Rattle.node_core.specs.Behind.{remains_at};
ghost use Rattle.node_core.specs.Changing.{changed_node, lent_behind, seen_for_change, ChangeFits, IsAddition};
ghost use Rattle.node_core.specs.Details.{details_told};
ghost use Rattle.node_core.specs.Fitting.{RequestFits};
ghost use Rattle.node_core.specs.Nodes.{seen_for, served_for, MayReply, node_after};
ghost use Rattle.node_core.specs.Payloads.{payload_of};
ghost use Rattle.node_core.specs.Serving.{details_at, iteration_behind, snapshot_behind};
ghost use Rattle.shared_nodes.specs.CellState.{CellState};
ghost use Rattle.shared_nodes.specs.Travelling.{payload_kept, travels, travels_change};
ghost use Rattle.shared_nodes.specs.declared.journal.NodeStep.TheVariants as steps;

use crate::journal::{Journal, JournalEntry, NodeStep};
use crate::kept::Kept;
use crate::seen::Seen;
use cluster_record::Record;
use node_core::{Lent, Node};
use node_msgs::{NodeChange, Reply, Request};
use std::alloc::{AllocError, Global};
use std::marker::Model;

/// A node with the journal of all that was done to it, and with what it was before.
#[derive(Drop)]
pub struct NodeCell {
    opening: Node,
    node: Node,
    journal: Journal,
}

impl Model for NodeCell {
    ghost use Rattle.shared_nodes.specs.CellState.{CellState};

    ghost Value = { CellState };

    ghost use Rattle.shared_nodes.specs.CellView.{cell_shown, IsPlayed};

    ghost view = { cell_shown };

    ghost invariant = { IsPlayed };
}

impl NodeCell {
    /// A node to which nothing was done yet, with an equal one that it was before, and a journal that is empty. It takes no
    /// memory, so who is refused it before still has the node.
    pub fn new(opening: Node, node: Node, journal: Journal) -> NodeCell
        requires same { node ≡ opening }
        requires empty { journal.entries ≡ [] }
        ensures { result ≡ record { opening = opening; node = node; journal = []; spare = journal.spare } }
    {
        NodeCell {
            opening,
            node,
            journal,
        }
    }

    /// The node.
    pub fn node(&self) -> &Node
        ensures { result.now ≡ self.now.node }
    {
        &self.node
    }

    /// How many entries more there is room for.
    pub fn spare(&self) -> usize
        ensures { result ≡ self.now.spare }
    {
        self.journal.spare()
    }

    /// The node serves a request, as `Node::serve` does, and its journal has just this entry more, with this ticket and
    /// with what is kept of what is lent.
    pub fn serve(
        &mut self,
        alloc: Global,
        seen: &Record,
        request: &Request,
        ticket: u64,
        kept: Kept,
        lent: &mut Lent,
    ) -> Reply
        requires fits { RequestFits (seen_for seen.now self.old.node request.now) self.old.node request.now lent.old }
        requires room { 1 ≤ self.old.spare }
        requires keeps { payload_kept kept ≡ travels request.now (payload_of lent.old) }
        ensures reply { MayReply (seen_for seen.now self.old.node request.now) self.old.node request.now (payload_of lent.old) result }
        ensures new { self.new.node ≡ node_after (seen_for seen.now self.old.node request.now) self.old.node request.now (payload_of lent.old) result }
        ensures details { details_told result lent.new ≡ details_at request.now (payload_of lent.old) (seen_for seen.now self.old.node request.now) (served_for seen.now self.old.node request.now) }
        ensures iteration { lent.new.iteration ≡ iteration_behind request.now (seen_for seen.now self.old.node request.now) (served_for seen.now self.old.node request.now) lent.old.iteration }
        ensures snapshot { lent.new.snap ≡ snapshot_behind request.now (served_for seen.now self.old.node request.now) lent.old.snap }
        ensures kept { lent.new ≡ remains_at request.now (served_for seen.now self.old.node request.now) result lent.new lent.old }
        ensures journal { self.new.journal ≡ self.old.journal ++ record { ticket = ticket; step = steps.Served request.now result; seen = seen_for seen.now self.old.node request.now; kept = kept } ∷ [] }
        ensures opening { self.new.opening ≡ self.old.opening }
        ensures spare { self.new.spare + 1 ≡ self.old.spare }
    {
        let showed = Seen::for_request(seen, request, &self.node);
        let reply = self.node.serve(alloc, seen, request, lent);
        self.journal.push(JournalEntry {
            ticket,
            step: NodeStep::Served(*request, reply),
            seen: showed,
            kept,
        });
        reply
    }

    /// The node has its part in a step of the record, as `Node::change` has, and its journal has just this entry more,
    /// with this ticket and with what is kept of what is lent. Where memory is refused, nothing changes.
    pub fn change(
        &mut self,
        alloc: Global,
        seen: &Record,
        change: &NodeChange,
        ticket: u64,
        kept: Kept,
        lent: &mut Lent,
    ) -> Result<(), AllocError>
        requires fits { ChangeFits (seen_for_change seen.now self.old.node change.now) self.old.node change.now lent.old }
        requires room { 1 ≤ self.old.spare }
        requires keeps { payload_kept kept ≡ travels_change change.now (payload_of lent.old) }
        ensures ok { OnOk result (self.new.node ≡ changed_node (seen_for_change seen.now self.old.node change.now) change.now (payload_of lent.old) self.old.node) }
        ensures journal { OnOk result (self.new.journal ≡ self.old.journal ++ record { ticket = ticket; step = steps.Changed change.now; seen = seen_for_change seen.now self.old.node change.now; kept = kept } ∷ []) }
        ensures opening { self.new.opening ≡ self.old.opening }
        ensures spare { OnOk result (self.new.spare + 1 ≡ self.old.spare) }
        ensures err { OnErr result ((self.new ≡ self.old) × IsAddition change.now) }
        ensures lent { lent.new ≡ lent_behind change.now self.old.node.replicas lent.old }
    {
        let showed = Seen::for_change(seen, change, &self.node);
        self.node.change(alloc, seen, change, lent)?;
        self.journal.push(JournalEntry {
            ticket,
            step: NodeStep::Changed(*change),
            seen: showed,
            kept,
        });
        Ok(())
    }

    /// The node and the journal.
    pub fn into_parts(self) -> (Node, Journal)
        ensures node { result.0 ≡ self.node }
        ensures journal { result.1 ≡ record { entries = self.journal; spare = self.spare } }
    {
        let NodeCell { node, journal, .. } = self;
        (node, journal)
    }
}
