//! A node, and the requests that it serves.
ghost use Rattle.std.specs.Prelude.{◌≡◌, ◌^◌, ◌<◌, [], length, IfOk, IfSome, IsSome, MatchOption, None, Some, OnErr, OnOk, true};
ghost use Rattle.cluster_record.specs.Places.{find_key};
ghost use Rattle.node_core.specs.Behind.{remains_at};
ghost use Rattle.node_core.specs.Changing.{added_for, changed_node, lent_behind, seen_for_change, ChangeFits, IsAddition};
ghost use Rattle.node_core.specs.Details.{details_told};
ghost use Rattle.node_core.specs.Failing.{next_change, node_left, HoldsEachOnce, WantsNothing};
ghost use Rattle.node_core.specs.Fitting.{MayBeMade, RequestFits};
ghost use Rattle.node_core.specs.Nodes.{NodeState, replica_key, seen_from, seen_for, served_for, MayReply, node_after, freed_node};
ghost use Rattle.node_core.specs.Lending.{HasRoomToRead};
ghost use Rattle.node_core.specs.Payloads.{payload_of, Payload};
ghost use Rattle.node_core.specs.ReplicaLending.{LendsReplica};
ghost use Rattle.node_core.specs.Seen.{RecordSeen};
ghost use Rattle.std.specs.Borrow.{sem};
ghost use Rattle.ckpt_types.specs.Reads.{read};
ghost use Rattle.ckpt_types.specs.declared.answers.Answer.TheVariants as answers;
ghost use Rattle.node_msgs.specs.declared.replies.Reply.TheVariants as replies;
ghost use Rattle.node_core.specs.Serving.{done_or_refused, details_at, iteration_behind, snapshot_behind};

use crate::changing::{break_at, lead_at, lend_at, stage_at, take_at};
use crate::copying::copy_replicas;
use crate::failing::{clear_due, first_due};
use crate::fitting::{change_fits_in, fits_in};
use crate::lent::Lent;
use crate::reads::read_in;
use crate::replicas::{find_at, keep_others, keep_there, place_there};
use crate::reserving::{add_in, reserve_in};
use crate::serving::serve_in;
use ckpt_types::{CkptId, Moment, NodeId, ReadBuf, ReadElement};
use cluster_record::Record;
use node_msgs::{NodeChange, Reply, Request};
use replica::Replica;
use std::alloc::{AllocError, Global};
use std::marker::Model;

/// A node with its replicas, complete or reserved.
#[derive(Drop)]
pub struct Node {
    number: NodeId,
    replicas: Vec<Replica>,
}

impl Model for Node {
    ghost use Rattle.node_core.specs.Nodes.{NodeState};

    ghost Value = { NodeState };

    ghost use Rattle.node_core.specs.NodeView.{node_shown};

    ghost view = { node_shown };
}

impl Node {
    /// A node of this number, without replicas.
    pub fn new(alloc: Global, number: NodeId) -> Result<Node, AllocError>
        ensures { IfOk result (λ node. node ≡ record { number = number; replicas = [] }) }
    {
        Ok(Node {
            number,
            replicas: Vec::new(alloc),
        })
    }

    /// Its number.
    #[inline(always)]
    pub fn number(&self) -> NodeId
        ensures { result ≡ self.now.number }
    {
        self.number
    }

    /// An equal node, with storage of its own for each replica.
    pub fn copy(&self, alloc: Global) -> Result<Node, AllocError>
        ensures { IfOk result (λ copy. copy ≡ self.now) }
    {
        Ok(Node {
            number: self.number,
            replicas: copy_replicas(alloc, self.replicas.as_slice())?,
        })
    }

    /// The answer to a request, by what the node sees of the record, and by its replica of the checkpoint alone. What
    /// travels beside the request is lent, and what comes beside the reply stands in it: the pieces of a read, the
    /// identifier of a new section, a status, the next section of an iteration, what was pulled. What is not used stays as
    /// it was. `NoReplica` is answered exactly where the record does not have the node complete for the checkpoint. A
    /// reservation takes memory, and may be refused it, unless it stands already; no other request takes any.
    pub fn serve(
        &mut self,
        alloc: Global,
        seen: &Record,
        request: &Request,
        lent: &mut Lent,
    ) -> Reply
        requires fits { RequestFits (seen_for seen.now self.old request.now) self.old request.now lent.old }
        ensures reply { MayReply (seen_for seen.now self.old request.now) self.old request.now (payload_of lent.old) result }
        ensures new { self.new ≡ node_after (seen_for seen.now self.old request.now) self.old request.now (payload_of lent.old) result }
        ensures details { details_told result lent.new ≡ details_at request.now (payload_of lent.old) (seen_for seen.now self.old request.now) (served_for seen.now self.old request.now) }
        ensures iteration { lent.new.iteration ≡ iteration_behind request.now (seen_for seen.now self.old request.now) (served_for seen.now self.old request.now) lent.old.iteration }
        ensures snapshot { lent.new.snap ≡ snapshot_behind request.now (served_for seen.now self.old request.now) lent.old.snap }
        ensures kept { lent.new ≡ remains_at request.now (served_for seen.now self.old request.now) result lent.new lent.old }
    {
        if let Request::Reserve(ckpt) = request {
            return reserve_in(&mut self.replicas, self.number, alloc, seen, *ckpt);
        }
        serve_in(
            self.replicas.as_mut_slice(),
            self.number,
            seen,
            request,
            lent,
        )
    }

    /// The replica of a checkpoint reads what the elements say, as it does where `serve` asks for it: its pieces come into the
    /// empty buffer, which a refusal leaves as it was. It takes no memory, and looks at no record. It requires that the node
    /// has the replica.
    #[inline(always)]
    pub fn read(
        &self,
        ckpt: CkptId,
        elements: &[ReadElement],
        now: Moment,
        out: &mut ReadBuf,
    ) -> Reply
        requires there { IsSome (find_key replica_key ckpt self.now.replicas) }
        requires few { length elements.now < 2 ^ 32 }
        requires room { HasRoomToRead elements.now out.old }
        ensures answer { IfSome (find_key replica_key ckpt self.now.replicas) (λ x. result ≡ done_or_refused (replies.Done answers.Pieces) (read elements.now now x.sections)) }
        ensures pieces { IfSome (find_key replica_key ckpt self.now.replicas) (λ x. IfOk (read elements.now now x.sections) (λ pieces. out.new.pieces ≡ pieces)) }
        ensures refused { IfSome (find_key replica_key ckpt self.now.replicas) (λ x. OnErr (read elements.now now x.sections) (out.new ≡ out.old)) }
    {
        read_in(self.replicas.as_slice(), ckpt, elements, now, out)
    }

    /// The replica of a checkpoint, which the node has.
    #[inline(always)]
    pub fn at(&mut self, ckpt: CkptId) -> &mut Replica
        requires { IsSome (find_key replica_key ckpt self.old.replicas) }
        ensures* lends { sem 𝓛 (LendsReplica self.entry ckpt result) }
        ensures value { find_key replica_key ckpt self.old.replicas ≡ Some result.now }
    {
        let place = place_there(self.replicas.as_slice(), ckpt);
        &mut self.replicas[place]
    }

    /// Whether a request may come to the node, with what is lent.
    pub fn fits(&self, seen: &Record, request: &Request, lent: &Lent) -> bool
        ensures fits { result ≡ true → RequestFits (seen_for seen.now self.now request.now) self.now request.now lent.now }
        ensures all { RequestFits (seen_for seen.now self.now request.now) self.now request.now lent.now → result ≡ true }
    {
        fits_in(self.replicas.as_slice(), self.number, seen, request, lent)
    }

    /// The node's part of a step of the record. An addition takes memory; where that is refused, the node is as
    /// before. Nothing else takes any. Where a replica is lent, the snapshot that travels beside the step has what the
    /// replica has from then on; the update of a stage is used up, and all else that is lent stays.
    pub fn change(
        &mut self,
        alloc: Global,
        seen: &Record,
        change: &NodeChange,
        lent: &mut Lent,
    ) -> Result<(), AllocError>
        requires fits { ChangeFits (seen_for_change seen.now self.old change.now) self.old change.now lent.old }
        ensures ok { OnOk result (self.new ≡ changed_node (seen_for_change seen.now self.old change.now) change.now (payload_of lent.old) self.old) }
        ensures err { OnErr result ((self.new ≡ self.old) × IsAddition change.now) }
        ensures lent { lent.new ≡ lent_behind change.now self.old.replicas lent.old }
    {
        match change {
            NodeChange::Add(ckpt, generation) => {
                add_in(
                    &mut self.replicas,
                    self.number,
                    alloc,
                    seen,
                    *ckpt,
                    *generation,
                )
            }
            NodeChange::Lend(ckpt) => {
                lend_at(self.replicas.as_slice(), *ckpt, lent);
                Ok(())
            }
            NodeChange::Take(ckpt, generation) => {
                take_at(self.replicas.as_mut_slice(), *ckpt, *generation, lent);
                Ok(())
            }
            NodeChange::Stage(call, ckpt, moment) => {
                stage_at(self.replicas.as_mut_slice(), *call, *ckpt, *moment, lent);
                Ok(())
            }
            NodeChange::Lead(ckpt, generation) => {
                lead_at(self.replicas.as_mut_slice(), *ckpt, *generation);
                Ok(())
            }
            NodeChange::Break(ckpt) => {
                break_at(self.replicas.as_mut_slice(), *ckpt);
                Ok(())
            }
            NodeChange::Drop(ckpt) => {
                keep_others(&mut self.replicas, *ckpt);
                Ok(())
            }
            NodeChange::Clear => {
                self.replicas.clear();
                Ok(())
            }
        }
    }

    /// A replica of a checkpoint is added, with this generation, as `change` does it.
    pub fn add(
        &mut self,
        alloc: Global,
        seen: &Record,
        ckpt: CkptId,
        generation: u64,
    ) -> Result<(), AllocError>
        requires there { MayBeMade (seen_from seen.now self.old ckpt).entry }
        requires free { find_key replica_key ckpt self.old.replicas ≡ None }
        ensures ok { OnOk result (self.new ≡ record self.old { replicas = added_for (seen_from seen.now self.old ckpt).entry ckpt generation self.old.replicas }) }
        ensures err { OnErr result (self.new ≡ self.old) }
    {
        add_in(
            &mut self.replicas,
            self.number,
            alloc,
            seen,
            ckpt,
            generation,
        )
    }

    /// Whether a change may come to the node, with what is lent.
    pub fn change_fits(&self, seen: &Record, change: &NodeChange, lent: &Lent) -> bool
        ensures fits { result ≡ true → ChangeFits (seen_for_change seen.now self.now change.now) self.now change.now lent.now }
        ensures all { ChangeFits (seen_for_change seen.now self.now change.now) self.now change.now lent.now → result ≡ true }
    {
        change_fits_in(self.replicas.as_slice(), self.number, seen, change, lent)
    }

    /// The replica that the node has of a checkpoint, complete or reserved.
    pub fn replica(&self, ckpt: CkptId) -> Option<&Replica>
        ensures { MatchOption result (find_key replica_key ckpt self.now.replicas ≡ None) (λ replica. find_key replica_key ckpt self.now.replicas ≡ Some replica.now) }
    {
        find_at(self.replicas.as_slice(), ckpt)
    }

    /// Behind the failure of a node, by the record behind it, the change that is due next at this one: on the node that
    /// failed all replicas go; on another, of the first replica at which a change is due, that goes with its checkpoint, or
    /// its weak write ends whose call is gone, or it gets the generation of a checkpoint whose active the node is now. It is
    /// one that `change` makes with nothing lent.
    pub fn next_change(&self, seen: &Record, failed: NodeId) -> Option<NodeChange>
        ensures { result ≡ next_change seen.now failed self.now }
    {
        if self.number == failed {
            return clear_due(self.replicas.as_slice());
        }
        first_due(self.replicas.as_slice(), self.number, seen)
    }

    // A change that wants nothing, as `change` makes it.
    fn change_alone(&mut self, change: &NodeChange)
        requires alone { WantsNothing change.now }
        ensures { (seen : RecordSeen) (p : Payload) → self.new ≡ changed_node seen change.now p self.old }
    {
        match change {
            NodeChange::Lead(ckpt, generation) => {
                lead_at(self.replicas.as_mut_slice(), *ckpt, *generation);
            }
            NodeChange::Break(ckpt) => break_at(self.replicas.as_mut_slice(), *ckpt),
            NodeChange::Drop(ckpt) => keep_others(&mut self.replicas, *ckpt),
            NodeChange::Clear => self.replicas.clear(),
            _ => unreachable!(),
        }
    }

    /// What the failure of a node leaves of this one, by the record behind it: each change that is due by `next_change`, one
    /// after the other, until none is. It takes no memory. It requires that no two replicas are of one checkpoint.
    pub fn fail(&mut self, seen: &Record, failed: NodeId)
        requires once { HoldsEachOnce self.old.replicas }
        ensures { self.new ≡ node_left seen.now failed self.old }
    {
        while let Some(change) = self.next_change(seen, failed) {
            self.change_alone(&change);
        }
    }

    /// The replicas go, complete or reserved, whose checkpoint has no entry in the record. It takes no memory.
    pub fn free_gone(&mut self, seen: &Record)
        ensures { self.new ≡ freed_node seen.now.entries self.old }
    {
        keep_there(&mut self.replicas, seen);
    }
}
