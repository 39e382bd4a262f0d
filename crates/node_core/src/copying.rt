//! Copies of the replicas of a node.
ghost use Rattle.std.specs.Prelude.{◌≡◌, IfOk};

use replica::Replica;
use std::alloc::{AllocError, Global};

/// The same replicas, each with storage of its own.
pub(crate) fn copy_replicas(alloc: Global, replicas: &[Replica]) -> Result<Vec<Replica>, AllocError>
    ensures { IfOk result (λ copies. copies.items ≡ replicas.now) }
{
    let mut copies = Vec::with_capacity(alloc, replicas.len())?;
    for replica in replicas {
        copies.push_reserved(replica.copy(alloc)?);
    }
    Ok(copies)
}
