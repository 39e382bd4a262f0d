//! How many updates the replicas of the nodes have, as the failure of a node is told of it.
ghost use Rattle.std.specs.Prelude.{◌≡◌, ◌+◌, ◌++◌, ◌≤◌, length};
ghost use Rattle.ckpt_types.specs.Limits.{nodes_max};
ghost use Rattle.cluster_record.specs.Counts.{counts_max};
ghost use Rattle.ckpt_machine.specs.CountsTold.{counts_from, counts_of};

use crate::nodes::Nodes;
use ckpt_types::NODES_MAX;
use cluster_record::{Counts, Entry, Record, UpdateCount};

/// How many updates each complete replica has. It takes no memory.
pub fn counts_of(cluster: &Record, nodes: &Nodes) -> Counts
    ensures { result ≡ counts_of nodes.now cluster.now.entries }
{
    let mut told = Counts::new();
    for place in 0..cluster.entries_len() {
        let Some(entry) = cluster.entry_at(place as u32) else {
            unreachable!()
        };
        tell_counts(entry, nodes, &mut told);
    }
    told
}

// Those of one checkpoint, from n0 on.
fn tell_counts(entry: &Entry, nodes: &Nodes, told: &mut Counts)
    requires nodes { length entry.now.complete ≡ nodes_max }
    requires room { length told.old + nodes_max ≤ counts_max }
    ensures told { told.new ≡ told.old ++ counts_from nodes.now entry.now.identity 0 entry.now.complete }
    ensures few { length told.new ≤ length told.old + nodes_max }
{
    for r in 0..NODES_MAX as u8 {
        if entry.complete[r as usize] != 0 {
            let count = match nodes.find(r, entry.identity) {
                None => 0,
                Some(replica) => replica.count(),
            };
            told.push(UpdateCount {
                ckpt: entry.identity,
                node: r,
                count,
            });
        }
    }
}
