//! A cluster taken apart, for whoever goes on with its parts.
ghost use Rattle.std.specs.Prelude.{◌≡◌, IfOk, map};
ghost use Rattle.ckpt_machine.specs.Nodes.{nodes_shown, StandByNumber};
ghost use Rattle.client_calls.specs.TableState.{client_part};
ghost use Rattle.world_core.specs.TakenApart.{busy_at, next_part};

use crate::world::{World, both};
use ckpt_types::NodeId;
use client_handles::Client;
use cluster_record::Record;
use node_core::Node;
use std::alloc::{AllocError, Global};

/// What a cluster is made of, its snapshots and its calls in hand aside. The last three are by client, with a place for
/// each of c0 to c99.
#[derive(Drop)]
pub struct WorldParts {
    /// What all nodes agree on.
    pub cluster: Record,
    /// The nodes, n0 first.
    pub nodes: Vec<Node>,
    /// The handles, iterations and places of a client; nothing before their room was taken.
    pub clients: Vec<Option<Client>>,
    /// Where a client has a call in hand, its node; of an Initialize the one that this names.
    pub busy: Vec<Option<NodeId>>,
    /// The number of a client's next call.
    pub next: Vec<u32>,
}

impl World {
    /// The parts of a cluster, which is there no more. It takes memory for what is by client alone.
    pub fn into_parts(self, alloc: Global) -> Result<WorldParts, AllocError>
        ensures cluster { IfOk result (λ parts. parts.cluster ≡ self.cluster) }
        ensures nodes { IfOk result (λ parts. nodes_shown parts.nodes.items ≡ self.nodes) }
        ensures numbered { IfOk result (λ parts. StandByNumber parts.nodes.items) }
        ensures clients { IfOk result (λ parts. parts.clients.items ≡ map client_part self.tables) }
        ensures busy { IfOk result (λ parts. parts.busy.items ≡ map (busy_at self.cluster) self.hands.clients) }
        ensures next { IfOk result (λ parts. parts.next.items ≡ map next_part self.tables) }
    {
        let busy = self.hands.busy(alloc, &self.cluster);
        let told = both(busy, self.tables.numbers(alloc));
        let ((busy, next), clients) = both(told, self.tables.into_clients(alloc))?;
        Ok(WorldParts {
            cluster: self.cluster,
            nodes: self.nodes.into_list(),
            clients,
            busy,
            next,
        })
    }
}
