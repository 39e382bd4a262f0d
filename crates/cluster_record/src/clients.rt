//! The clients that are live, and on which node.
ghost use Rattle.std.specs.Prelude.{◌≡◌, ◌≤◌, filter, not, ◌==◌, IfOk, vec_capacity};
ghost use Rattle.ckpt_types.specs.Limits.{clients_max};
ghost use Rattle.cluster_record.specs.Calls.{number_of};
ghost use Rattle.cluster_record.specs.Failing.{first_on};
ghost use Rattle.cluster_record.specs.Places.{find_key};
ghost use Rattle.cluster_record.specs.RecordState.{client_key};

use ckpt_types::{ActorName, CLIENTS_MAX, Incarnation, NodeId};
use std::alloc::{AllocError, Global};

/// A client that is live.
#[derive(Clone, Copy)]
pub struct LiveClient {
    /// The client, 0 to 99.
    pub client: u8,
    /// Its node.
    pub node: NodeId,
    /// The life of that node in which it became live.
    pub incarnation: Incarnation,
    /// The number of its Initialize call.
    pub initialize: u32,
}

pub(crate) fn find_client(clients: &[LiveClient], client: u8) -> Option<LiveClient>
    ensures { result ≡ find_key client_key client clients.now }
{
    for live in clients {
        if live.client == client {
            return Some(*live);
        }
    }
    None
}

/// The first client that is live on this node.
pub(crate) fn first_on(clients: &[LiveClient], node: NodeId) -> Option<u8>
    ensures { result ≡ first_on node clients.now }
{
    for live in clients {
        if live.node == node {
            return Some(live.client);
        }
    }
    None
}

/// A client is live no more.
pub(crate) fn take_out(clients: &mut Vec<LiveClient>, client: u8)
    ensures items { clients.new.items ≡ filter (λ live. not (client_key live == client)) clients.old.items }
    ensures capacity { vec_capacity clients.new ≡ vec_capacity clients.old }
{
    clients.retain(|live| live.client != client);
}

/// The same live clients, with room for all that may be.
pub(crate) fn copy_clients(
    alloc: Global,
    clients: &[LiveClient],
) -> Result<Vec<LiveClient>, AllocError>
    ensures items { IfOk result (λ copies. copies.items ≡ clients.now) }
    ensures room { IfOk result (λ copies. clients_max ≤ vec_capacity copies) }
{
    let mut copies = Vec::with_capacity(alloc, CLIENTS_MAX)?;
    copies.extend_from_slice(clients)?;
    Ok(copies)
}

/// The number of a client or node.
pub fn number_of(actor: &ActorName) -> u8
    ensures { result ≡ number_of actor.now }
{
    match actor {
        ActorName::Client(number) | ActorName::Node(number) => *number,
    }
}
