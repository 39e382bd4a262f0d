//! The room that a call takes at its beginning and has in hand: for an iteration that it starts, or for a snapshot.
ghost use Rattle.std.specs.Prelude.{◌≡◌, None, IfOk};
ghost use Rattle.ckpt_types.specs.Asks.{asked};
ghost use Rattle.section_iter.specs.Room.{room_declared};
ghost use Rattle.ckpt_machine.specs.Due.{declared_at, room_at};
ghost use Rattle.client_calls.specs.HandRooms.{room_for, copy_room, copy_room_for};

use ckpt_types::{CkptId, CreationAttributes, Op};
use cluster_record::Record;
use section_iter::Iteration;
use snap_copy::Snap;
use std::alloc::{AllocError, Global};

/// What is declared where no checkpoint is.
pub(crate) const DECLARES_NOTHING: CreationAttributes = CreationAttributes {
    creation_flags: 0,
    checkpoint_size: 0,
    retention_duration: 0,
    max_sections: 0,
    max_section_size: 0,
    max_section_id_size: 0,
};

/// The room that a call has in hand.
#[derive(Drop)]
pub struct HandRooms {
    /// For the iteration that it starts.
    pub iteration: Option<Iteration>,
    /// For what it copies.
    pub snapshot: Option<Snap>,
}

impl HandRooms {
    /// No room.
    pub fn none() -> HandRooms
        ensures iteration { result.iteration ≡ None }
        ensures snapshot { result.snapshot ≡ None }
    {
        HandRooms {
            iteration: None,
            snapshot: None,
        }
    }

    /// The room that a call of this operation takes, on the checkpoint that it keeps.
    pub fn reserve(
        alloc: Global,
        op: &Op,
        cluster: &Record,
        ckpt: Option<CkptId>,
    ) -> Result<HandRooms, AllocError>
        ensures iteration { IfOk result (λ rooms. rooms.iteration ≡ room_for (asked op.now) (room_at cluster.now ckpt)) }
        ensures snapshot { IfOk result (λ rooms. rooms.snapshot ≡ copy_room_for (asked op.now) (declared_at cluster.now ckpt)) }
    {
        match op {
            Op::Iter(_, _, _, _) => {
                let declared = declared_by(cluster, ckpt);
                Ok(HandRooms {
                    iteration: Some(Iteration::reserve(alloc, &declared)?),
                    snapshot: None,
                })
            }
            Op::Sync(_, _) | Op::SyncAsync(_, _) | Op::Active(_) | Op::Copy => Ok(HandRooms {
                iteration: None,
                snapshot: copy_room(alloc, cluster, ckpt)?,
            }),
            _ => Ok(HandRooms::none()),
        }
    }
}

// What a checkpoint declares; one that is gone declares nothing.
fn declared_by(cluster: &Record, ckpt: Option<CkptId>) -> CreationAttributes
    ensures { room_declared result ≡ room_at cluster.now ckpt }
{
    let Some(ckpt) = ckpt else {
        return DECLARES_NOTHING;
    };
    match cluster.declared(ckpt) {
        None => DECLARES_NOTHING,
        Some(attributes) => attributes,
    }
}

// Room for a snapshot of a checkpoint; none of one that is gone.
fn copy_room(
    alloc: Global,
    cluster: &Record,
    ckpt: Option<CkptId>,
) -> Result<Option<Snap>, AllocError>
    ensures { IfOk result (λ snapshot. snapshot ≡ copy_room (declared_at cluster.now ckpt)) }
{
    let Some(ckpt) = ckpt else {
        return Ok(None);
    };
    match cluster.entry(ckpt) {
        None => Ok(None),
        Some(entry) => Ok(Some(Snap::reserve(alloc, &entry.attributes)?)),
    }
}
