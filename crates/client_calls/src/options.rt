//! What the attributes of a checkpoint say of its updates.
ghost use Rattle.std.specs.Prelude.{◌≡◌};
ghost use Rattle.ckpt_machine.specs.Options.{is_weak};
ghost use Rattle.cluster_record.specs.Placement.{is_all};

use ckpt_types::{
    CHECKPOINT_COLLOCATED, CreationAttributes, WR_ACTIVE_REPLICA_WEAK, WR_ALL_REPLICAS,
};

/// Whether they are on all its replicas.
pub fn is_all(attributes: &CreationAttributes) -> bool
    ensures { result ≡ is_all attributes.now }
{
    attributes.creation_flags == WR_ALL_REPLICAS
}

/// Whether its writes are weak.
pub fn is_weak(attributes: &CreationAttributes) -> bool
    ensures { result ≡ is_weak attributes.now }
{
    let flags = attributes.creation_flags;
    flags == WR_ACTIVE_REPLICA_WEAK || flags == WR_ACTIVE_REPLICA_WEAK + CHECKPOINT_COLLOCATED
}
