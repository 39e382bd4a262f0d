//! The nodes n0 to n7, and the requests that they serve.
ghost use Rattle.std.specs.Prelude.{◌≡◌, ℕ, ◌^◌, ◌<◌, ◌≤◌, ◌==◌, [], None, Some, IfOk, IfSome, IsSome, MatchOption, OnErr, OnOk, false, length, replicate};
ghost use Rattle.std.specs.Borrow.{sem};
ghost use Rattle.ckpt_types.specs.Attributes.{is_malformed};
ghost use Rattle.ckpt_types.specs.declared.answers.Answer.TheVariants as answers;
ghost use Rattle.ckpt_types.specs.Limits.{nodes_max};
ghost use Rattle.ckpt_types.specs.Reads.{read};
ghost use Rattle.node_msgs.specs.declared.replies.Reply.TheVariants as replies;
ghost use Rattle.cluster_record.specs.RecordState.{entry_of};
ghost use Rattle.node_core.specs.Behind.{remains_at};
ghost use Rattle.node_core.specs.Details.{details_told};
ghost use Rattle.node_core.specs.Failing.{HoldsEachOnce};
ghost use Rattle.ckpt_machine.specs.Asking.{MayCome, KeepsToDeclared};
ghost use Rattle.node_core.specs.Lending.{HasRoomToRead};
ghost use Rattle.node_core.specs.Nodes.{MayReply, seen_for, served_for};
ghost use Rattle.node_core.specs.Payloads.{payload_of};
ghost use Rattle.node_core.specs.Serving.{details_at, done_or_refused, iteration_behind, snapshot_behind};
ghost use Rattle.ckpt_machine.specs.Holding.{replicas_on};
ghost use Rattle.ckpt_machine.specs.Nodes.{freed, nodes_left};
ghost use Rattle.ckpt_machine.specs.Nodes.{node_at, nodes_after, nodes_shown, replica_in, with_added, StandByNumber};
ghost use Rattle.cluster_nodes.specs.ReplicaLending.{LendsReplica};

use ckpt_types::{CkptId, Moment, NODES_MAX, NodeId, ReadBuf, ReadElement};
use cluster_record::{Entry, Record};
use node_core::{Lent, Node};
use node_msgs::{Reply, Request};
use replica::Replica;
use std::alloc::{AllocError, Global};
use std::marker::Model;

/// The nodes n0 to n7.
#[derive(Drop)]
pub struct Nodes {
    list: Vec<Node>,
}

impl Model for Nodes {
    ghost use Rattle.std.specs.Prelude.{List};
    ghost use Rattle.replica.specs.Replicas.{Replica};

    ghost Value = { List (List Replica) };

    ghost use Rattle.ckpt_machine.specs.Nodes.{nodes_shown, StandByNumber};

    ghost view = { λ nodes. nodes_shown nodes.list.items };

    ghost invariant = { λ nodes. StandByNumber nodes.list.items };
}

impl Nodes {
    /// Eight nodes without a replica.
    pub fn new(alloc: Global) -> Result<Nodes, AllocError>
        ensures { IfOk result (λ nodes. nodes ≡ replicate nodes_max []) }
    {
        Ok(Nodes {
            list: new_nodes(alloc)?,
        })
    }

    /// Equal nodes, with storage of their own for each replica.
    pub fn copy(&self, alloc: Global) -> Result<Nodes, AllocError>
        ensures { IfOk result (λ copy. copy ≡ self.now) }
    {
        Ok(Nodes {
            list: copy_nodes(alloc, self.list.as_slice())?,
        })
    }

    /// The nodes, n0 first.
    pub fn into_list(self) -> Vec<Node>
        ensures shown { nodes_shown result.items ≡ self }
        ensures numbered { StandByNumber result.items }
    {
        self.list
    }

    /// How many nodes there are.
    #[inline(always)]
    pub fn count(&self) -> usize
        ensures len { result ≡ length self.now }
        ensures eight { result ≡ nodes_max }
    {
        self.list.len()
    }

    /// The answer of a node to a request, by what it sees of the record. What travels beside the request is lent, and
    /// what comes beside the reply stands in it; what is not used stays as it was, and so do the other nodes. A reservation
    /// alone takes memory.
    pub fn serve(
        &mut self,
        alloc: Global,
        r: NodeId,
        seen: &Record,
        request: &Request,
        lent: &mut Lent,
    ) -> Reply
        requires node { r < nodes_max }
        requires may { MayCome seen.now (node_at self.old r) request.now lent.old }
        ensures reply { MayReply (seen_for seen.now (node_at self.old r) request.now) (node_at self.old r) request.now (payload_of lent.old) result }
        ensures new { self.new ≡ nodes_after seen.now self.old r request.now (payload_of lent.old) result }
        ensures details { details_told result lent.new ≡ details_at request.now (payload_of lent.old) (seen_for seen.now (node_at self.old r) request.now) (served_for seen.now (node_at self.old r) request.now) }
        ensures iteration { lent.new.iteration ≡ iteration_behind request.now (seen_for seen.now (node_at self.old r) request.now) (served_for seen.now (node_at self.old r) request.now) lent.old.iteration }
        ensures snapshot { lent.new.snap ≡ snapshot_behind request.now (served_for seen.now (node_at self.old r) request.now) lent.old.snap }
        ensures kept { lent.new ≡ remains_at request.now (served_for seen.now (node_at self.old r) request.now) result lent.new lent.old }
        ensures there { r < length self.old }
    {
        serve_node(self.list.as_mut_slice(), alloc, r, seen, request, lent)
    }

    /// The replica of a checkpoint on a node, which has one.
    #[inline(always)]
    pub fn at(&mut self, r: NodeId, ckpt: CkptId) -> &mut Replica
        requires node { r < nodes_max }
        requires there { IsSome (replica_in self.old ckpt r) }
        ensures* lends { sem 𝓛 (LendsReplica self.entry r ckpt result) }
        ensures value { replica_in self.old ckpt r ≡ Some result.now }
    {
        self.list[r as usize].at(ckpt)
    }

    /// The replica of a checkpoint on a node reads, as it does where `serve` asks for it: the pieces come into the empty
    /// buffer, which a refusal leaves as it was. It takes no memory.
    #[inline(always)]
    pub fn read(
        &self,
        r: NodeId,
        ckpt: CkptId,
        elements: &[ReadElement],
        now: Moment,
        out: &mut ReadBuf,
    ) -> Reply
        requires node { r < nodes_max }
        requires there { IsSome (replica_in self.now ckpt r) }
        requires few { length elements.now < 2 ^ 32 }
        requires room { HasRoomToRead elements.now out.old }
        ensures answer { IfSome (replica_in self.now ckpt r) (λ x. result ≡ done_or_refused (replies.Done answers.Pieces) (read elements.now now x.sections)) }
        ensures pieces { IfSome (replica_in self.now ckpt r) (λ x. IfOk (read elements.now now x.sections) (λ pieces. out.new.pieces ≡ pieces)) }
        ensures refused { IfSome (replica_in self.now ckpt r) (λ x. OnErr (read elements.now now x.sections) (out.new ≡ out.old)) }
    {
        read_at(self.list.as_slice(), r, ckpt, elements, now, out)
    }

    /// A node gets the replica of a checkpoint, as the record has it. Where memory is refused, nothing changes.
    pub fn add(
        &mut self,
        alloc: Global,
        r: NodeId,
        seen: &Record,
        entry: &Entry,
    ) -> Result<(), AllocError>
        requires node { r < nodes_max }
        requires there { entry_of entry.now.identity seen.now.entries ≡ Some entry.now }
        requires well_formed { is_malformed entry.now.attributes ≡ false }
        requires free { replica_in self.old entry.now.identity r ≡ None }
        ensures ok { OnOk result (self.new ≡ with_added entry.now r self.old) }
        ensures err { OnErr result (self.new ≡ self.old) }
    {
        add_to(self.list.as_mut_slice(), alloc, r, seen, entry)
    }

    /// The replica that a node has of a checkpoint, complete or reserved.
    pub fn find(&self, r: NodeId, ckpt: CkptId) -> Option<&Replica>
        requires { r < nodes_max }
        ensures { MatchOption result (replica_in self.now ckpt r ≡ None) (λ replica. replica_in self.now ckpt r ≡ Some replica.now) }
    {
        find_at(self.list.as_slice(), r, ckpt)
    }

    /// On all nodes the replicas go, complete or reserved, whose checkpoint has no entry in the record. It
    /// takes no memory.
    pub fn free_gone(&mut self, seen: &Record)
        ensures new { self.new ≡ freed seen.now.entries self.old }
        ensures eight { length self.old ≡ nodes_max }
    {
        free_nodes(self.list.as_mut_slice(), seen);
    }

    /// What the failure of a node leaves of all, by the record behind it. It takes no memory.
    pub fn fail(&mut self, seen: &Record, failed: NodeId)
        requires { (r : ℕ) → HoldsEachOnce (replicas_on self.old r) }
        ensures { self.new ≡ nodes_left seen.now failed self.old }
    {
        fail_nodes(self.list.as_mut_slice(), seen, failed);
    }
}

fn new_nodes(alloc: Global) -> Result<Vec<Node>, AllocError>
    ensures shown { IfOk result (λ nodes. nodes_shown nodes.items ≡ replicate nodes_max []) }
    ensures numbered { IfOk result (λ nodes. StandByNumber nodes.items) }
{
    let mut nodes = Vec::with_capacity(alloc, NODES_MAX)?;
    for r in 0..NODES_MAX {
        nodes.push(Node::new(alloc, r as NodeId)?)?;
    }
    Ok(nodes)
}

fn copy_nodes(alloc: Global, nodes: &[Node]) -> Result<Vec<Node>, AllocError>
    ensures { IfOk result (λ copies. copies.items ≡ nodes.now) }
{
    let mut copies = Vec::with_capacity(alloc, nodes.len())?;
    for node in nodes {
        copies.push_reserved(node.copy(alloc)?);
    }
    Ok(copies)
}

fn serve_node(
    nodes: &mut [Node],
    alloc: Global,
    r: NodeId,
    seen: &Record,
    request: &Request,
    lent: &mut Lent,
) -> Reply
    requires numbered { StandByNumber nodes.old }
    requires node { r < length nodes.old }
    requires may { MayCome seen.now (node_at (nodes_shown nodes.old) r) request.now lent.old }
    ensures numbered { StandByNumber nodes.new }
    ensures reply { MayReply (seen_for seen.now (node_at (nodes_shown nodes.old) r) request.now) (node_at (nodes_shown nodes.old) r) request.now (payload_of lent.old) result }
    ensures new { nodes_shown nodes.new ≡ nodes_after seen.now (nodes_shown nodes.old) r request.now (payload_of lent.old) result }
    ensures details { details_told result lent.new ≡ details_at request.now (payload_of lent.old) (seen_for seen.now (node_at (nodes_shown nodes.old) r) request.now) (served_for seen.now (node_at (nodes_shown nodes.old) r) request.now) }
    ensures iteration { lent.new.iteration ≡ iteration_behind request.now (seen_for seen.now (node_at (nodes_shown nodes.old) r) request.now) (served_for seen.now (node_at (nodes_shown nodes.old) r) request.now) lent.old.iteration }
    ensures snapshot { lent.new.snap ≡ snapshot_behind request.now (served_for seen.now (node_at (nodes_shown nodes.old) r) request.now) lent.old.snap }
    ensures kept { lent.new ≡ remains_at request.now (served_for seen.now (node_at (nodes_shown nodes.old) r) request.now) result lent.new lent.old }
{
    let node = &mut nodes[r as usize];
    see_declared(node, request, lent);
    node.serve(alloc, seen, request, lent)
}

// What a pull and an installation copy keeps to what is declared for it, as its type tells.
fn see_declared(node: &Node, request: &Request, lent: &Lent)
    ensures { KeepsToDeclared request.now node.now lent.now }
{
    match request {
        Request::Pull(_, ckpt) => {
            if let Some(replica) = node.replica(*ckpt) {
                let _declared = replica.store().attributes();
            }
        }
        Request::Install(_, _) => {
            if let Some(snap) = &lent.snap {
                let _declared = snap.attributes();
            }
        }
        _ => {}
    }
}

#[inline(always)]
fn read_at(
    nodes: &[Node],
    r: NodeId,
    ckpt: CkptId,
    elements: &[ReadElement],
    now: Moment,
    out: &mut ReadBuf,
) -> Reply
    requires node { r < length nodes.now }
    requires there { IsSome (replica_in (nodes_shown nodes.now) ckpt r) }
    requires few { length elements.now < 2 ^ 32 }
    requires room { HasRoomToRead elements.now out.old }
    ensures answer { IfSome (replica_in (nodes_shown nodes.now) ckpt r) (λ x. result ≡ done_or_refused (replies.Done answers.Pieces) (read elements.now now x.sections)) }
    ensures pieces { IfSome (replica_in (nodes_shown nodes.now) ckpt r) (λ x. IfOk (read elements.now now x.sections) (λ pieces. out.new.pieces ≡ pieces)) }
    ensures refused { IfSome (replica_in (nodes_shown nodes.now) ckpt r) (λ x. OnErr (read elements.now now x.sections) (out.new ≡ out.old)) }
{
    nodes[r as usize].read(ckpt, elements, now, out)
}

fn add_to(
    nodes: &mut [Node],
    alloc: Global,
    r: NodeId,
    seen: &Record,
    entry: &Entry,
) -> Result<(), AllocError>
    requires numbered { StandByNumber nodes.old }
    requires node { r < length nodes.old }
    requires there { entry_of entry.now.identity seen.now.entries ≡ Some entry.now }
    requires well_formed { is_malformed entry.now.attributes ≡ false }
    requires free { replica_in (nodes_shown nodes.old) entry.now.identity r ≡ None }
    ensures numbered { StandByNumber nodes.new }
    ensures ok { OnOk result (nodes_shown nodes.new ≡ with_added entry.now r (nodes_shown nodes.old)) }
    ensures err { OnErr result (nodes_shown nodes.new ≡ nodes_shown nodes.old) }
{
    let node = &mut nodes[r as usize];
    node.add(alloc, seen, entry.identity, entry.generation)
}

fn find_at(nodes: &[Node], r: NodeId, ckpt: CkptId) -> Option<&Replica>
    requires { r < length nodes.now }
    ensures { MatchOption result (replica_in (nodes_shown nodes.now) ckpt r ≡ None) (λ replica. replica_in (nodes_shown nodes.now) ckpt r ≡ Some replica.now) }
{
    nodes[r as usize].replica(ckpt)
}

fn free_nodes(nodes: &mut [Node], seen: &Record)
    requires { StandByNumber nodes.old }
    ensures numbered { StandByNumber nodes.new }
    ensures new { nodes_shown nodes.new ≡ freed seen.now.entries (nodes_shown nodes.old) }
{
    for node in nodes.iter_mut() {
        node.free_gone(seen);
    }
}

fn fail_nodes(nodes: &mut [Node], seen: &Record, failed: NodeId)
    requires numbered { StandByNumber nodes.old }
    requires once { (r : ℕ) → HoldsEachOnce (replicas_on (nodes_shown nodes.old) r) }
    ensures numbered { StandByNumber nodes.new }
    ensures new { nodes_shown nodes.new ≡ nodes_left seen.now failed (nodes_shown nodes.old) }
{
    for node in nodes.iter_mut() {
        node.fail(seen, failed);
    }
}
