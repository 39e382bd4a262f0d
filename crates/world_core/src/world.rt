//! The cluster, and the events that may happen to it.
ghost use Rattle.std.specs.Prelude.{◌≡◌, ◌≤◌, IfOk, IsOk, Ok, OnOk, OnErr, is_some};
ghost use Rattle.world_core.specs.Shows.{IsShown, HasNumbersLeft};
ghost use Rattle.world_core.specs.Parts.{record_in, call_in_hand};
ghost use Rattle.world_core.specs.Happenings.{Adds, ComesNow, IsAnswered};
ghost use Rattle.world_core.specs.Runs.{IsNew, IsRunTo, IsSureToHappen, MayHappen, Happens};
ghost use Rattle.ckpt_machine.specs.Promises.{KeepsPromises};
ghost use Rattle.world_core.specs.declared.world.World.{World};
ghost use Rattle.world_core.specs.StepsLeft.{ComesNearer};

use crate::hands::Hands;
use crate::snapshots::Snapshots;
use crate::tables::Tables;
use ckpt_machine::machine_law;
use ckpt_types::{ActorName, CkptId, Moment, NODES_MAX, NodeId, Op, Who};
use cluster_nodes::Nodes;
use cluster_record::Record;
use run_labels::RunLog;
use std::alloc::{AllocError, Global};

/// What may happen to the cluster.
#[derive(Drop)]
pub enum Event {
    /// The first nodes come up, so many.
    Nodes(u8),
    /// A call begins: of a client, or the copying of a node.
    Begin(ActorName, Op),
    /// A call takes its next step; the bool tells that a `finish` line asks for it.
    Step(Who, bool),
    /// The moment is set, and what is over then is swept away.
    At(Moment),
    /// The replicas of a checkpoint are told.
    Show(CkptId),
    /// The background snapshot of a checkpoint is taken, of its active replica.
    Pull(CkptId),
    /// The background snapshot of a checkpoint is put onto the replica of a node.
    Put(CkptId, NodeId),
    /// A node fails.
    Fail(NodeId),
    /// A node joins.
    Join(NodeId),
}

/// The cluster.
#[derive(Drop)]
pub struct World {
    /// What all nodes agree on.
    pub(crate) cluster: Record,
    /// The nodes with their replicas.
    pub(crate) nodes: Nodes,
    /// The background snapshots of the checkpoints.
    pub(crate) snapshots: Snapshots,
    /// What each client keeps.
    pub(crate) tables: Tables,
    /// The calls in hand.
    pub(crate) hands: Hands,
    /// By node, the number of its next call.
    pub(crate) numbers: [u32; NODES_MAX],
}

impl World {
    /// A cluster of which no node is up. All the room of its record, nodes and hands is taken here, and that of a
    /// client when it becomes live.
    pub fn new(alloc: Global) -> Result<World, AllocError>
        ensures { IfOk result IsNew }
    {
        let shared = both(Record::new(alloc, 0), Nodes::new(alloc));
        let kept = both(Tables::new(alloc), Hands::new(alloc));
        let ((cluster, nodes), (tables, hands)) = both(shared, kept)?;
        Ok(World {
            cluster,
            nodes,
            snapshots: Snapshots::new(alloc),
            tables,
            hands,
            numbers: [1; NODES_MAX],
        })
    }
}

impl World {
    /// An equal cluster, with storage and room of its own. Only its memory may be refused.
    pub fn copy(&self, alloc: Global) -> Result<World, AllocError>
        ensures { IfOk result (λ copy. copy ≡ self.now) }
    {
        let shared = both(self.cluster.copy(alloc), self.nodes.copy(alloc));
        let kept = both(self.tables.copy(alloc), self.hands.copy(alloc));
        let all = both(both(shared, kept), self.snapshots.copy(alloc));
        let (((cluster, nodes), (tables, hands)), snapshots) = all?;
        Ok(World {
            cluster,
            nodes,
            snapshots,
            tables,
            hands,
            numbers: self.numbers,
        })
    }
}

/// A cluster to which one event after another happens. Whoever makes events happen by this knows what the world promises, and
/// its proof reads nothing of how the world keeps that.
pub trait Cluster {
    /// The world that it is.
    ghost shown: { Self → World };

    /// What all nodes agree on.
    fn record(&self) -> &Record
        ensures { result.now ≡ record_in (shown self.now) };

    /// Whether a call is in hand under a name: that of a client or a node, or that of an asynchronous call.
    fn in_hand(&self, who: Who) -> bool
        ensures { result ≡ is_some (call_in_hand (shown self.now) who) };

    /// One event, and one label more, which answers it. Want of memory leaves the world and the log as
    /// they were; a call whose own memory is refused ends with it instead. An event that takes no memory of the
    /// world is sure to happen where the log has room.
    fn event(&mut self, alloc: Global, event: Event, log: &mut RunLog) -> Result<(), AllocError>
        requires { MayHappen (shown self.old) log.old.labels event }
        ensures run { IsRunTo (shown self.new) log.new.labels }
        ensures happens { OnOk result (Happens event (shown self.old) (shown self.new) log.old.labels log.new.labels) }
        ensures err { OnErr result ((shown self.new ≡ shown self.old) × (log.new.labels ≡ log.old.labels)) }
        ensures sure { IsSureToHappen event → 1 ≤ log.old.spare → IsOk result }

        // The log is a run, so it keeps all that a run promises.
        ensures promises { KeepsPromises log.new.labels }

        // For whoever steps a call to its end.
        ensures nearer { OnOk result (ComesNearer event (shown self.old) (shown self.new)) };
}

impl Cluster for World {
    ghost shown = { λ world. world };

    fn record(&self) -> &Record {
        &self.cluster
    }

    fn in_hand(&self, who: Who) -> bool {
        self.hands.has(who)
    }

    // Put in line: a call would move the event once more.
    #[inline(always)]
    fn event(&mut self, alloc: Global, event: Event, log: &mut RunLog) -> Result<(), AllocError> {
        machine_law();
        self.run_on(alloc, event, log)
    }
}

impl World {
    // The run goes on by one label, which answers the event, or stays as it is.
    #[inline(always)]
    fn run_on(&mut self, alloc: Global, event: Event, log: &mut RunLog) -> Result<(), AllocError>
        requires { MayHappen self.old log.old.labels event }
        ensures run { IsRunTo self.new log.new.labels }
        ensures happens { OnOk result (Happens event self.old self.new log.old.labels log.new.labels) }
        ensures err { OnErr result ((self.new ≡ self.old) × (log.new.labels ≡ log.old.labels)) }
        ensures sure { IsSureToHappen event → 1 ≤ log.old.spare → IsOk result }
        ensures nearer { OnOk result (ComesNearer event self.old self.new) }
    {
        machine_law();
        log.reserve(1)?;
        self.happen(alloc, event, log)?;
        Ok(())
    }

    // One label more, which answers the event, in the room that the log has.
    // Put in line, as the event is known where it is made.
    #[inline(always)]
    fn happen(&mut self, alloc: Global, event: Event, log: &mut RunLog) -> Result<(), AllocError>
        requires comes { ComesNow self.old event }
        requires shown { IsShown self.old }
        requires roomy { HasNumbersLeft self.old }
        requires spare { 1 ≤ log.old.spare }
        ensures ok { OnOk result (Adds log.old log.new (IsAnswered event self.old self.new)) }
        ensures err { OnErr result ((self.new ≡ self.old) × (log.new.labels ≡ log.old.labels)) }
        ensures sure { IsSureToHappen event → IsOk result }
    {
        match event {
            Event::Nodes(n) => {
                self.bring_up(n, log);
                Ok(())
            }
            Event::Begin(ActorName::Client(c), op) => self.begin(alloc, c, op, log),
            Event::Begin(ActorName::Node(r), _) => {
                self.begin_copy(alloc, r, log);
                Ok(())
            }
            Event::Step(Who::Actor(ActorName::Client(c)), finish) => {
                self.step(alloc, c, finish, log)
            }
            Event::Step(Who::Actor(ActorName::Node(r)), finish) => {
                self.step_copy(alloc, r, finish, log)
            }
            Event::Step(Who::Call(call), finish) => self.step_alone(alloc, call, finish, log),
            Event::Show(ckpt) => self.show(alloc, ckpt, log),
            Event::At(t) => {
                self.at(t, log);
                Ok(())
            }
            Event::Pull(ckpt) => {
                self.pull(ckpt, log);
                Ok(())
            }
            Event::Put(ckpt, r) => {
                self.put(ckpt, r, log);
                Ok(())
            }
            Event::Fail(r) => {
                self.fail(r, log);
                Ok(())
            }
            Event::Join(r) => {
                self.join(r, log);
                Ok(())
            }
        }
    }
}

/// Both values, where there are both.
pub(crate) fn both<A: Drop, B: Drop>(
    first: Result<A, AllocError>,
    second: Result<B, AllocError>,
) -> Result<(A, B), AllocError>
    ensures { IfOk result (λ pair. (first ≡ Ok pair.0) × (second ≡ Ok pair.1)) }
{
    Ok((first?, second?))
}
