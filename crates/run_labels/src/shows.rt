//! The lines of a `show`.
ghost use Rattle.std.specs.Prelude.{◌≡◌, ◌++◌, OnOk};
ghost use Rattle.std.specs.List.{flat_map};
ghost use Rattle.run_labels.specs.Shows.{slot_text, star_text, shown_section_text, replica_front, replica_counts, replica_line, shown_lines};

use crate::shown::{ShownReplica, ShownReplicas, ShownSection, ShownSlot};
use crate::texts::{
    append_ckpt, append_counted, append_node, append_of_call, append_spaced, append_spaced_bytes,
    append_spaced_state, append_spaced_time, append_text,
};
use ckpt_types::{CkptId, NodeId};
use std::alloc::AllocError;

/// The lines of all replicas of a checkpoint, or that it is gone.
#[inline(never)]
pub(crate) fn append_shown(
    out: &mut Vec<u8>,
    ckpt: CkptId,
    replicas: &Option<ShownReplicas>,
) -> Result<(), AllocError>
    ensures { OnOk result (out.new.items ≡ out.old.items ++ shown_lines ckpt replicas.now) }
{
    match replicas {
        None => {
            append_ckpt(out, ckpt)?;
            append_text(out, " gone\n")
        }
        Some(replicas) => append_replicas(out, ckpt, replicas.as_slice()),
    }
}

/// The line of each replica in order.
fn append_replicas(
    out: &mut Vec<u8>,
    ckpt: CkptId,
    replicas: &[ShownReplica],
) -> Result<(), AllocError>
    ensures { OnOk result (out.new.items ≡ out.old.items ++ flat_map (replica_line ckpt) replicas.now) }
{
    for replica in replicas {
        append_replica(out, ckpt, replica)?;
    }
    Ok(())
}

/// The line of one replica.
fn append_replica(out: &mut Vec<u8>, ckpt: CkptId, replica: &ShownReplica) -> Result<(), AllocError>
    ensures { OnOk result (out.new.items ≡ out.old.items ++ replica_line ckpt replica.now) }
{
    append_front(out, ckpt, replica.node, replica.active)?;
    append_counts(out, replica.generation, replica.count)?;
    append_slot(out, &replica.slot)?;
    append_sections(out, replica.sections.as_slice())?;
    append_text(out, "\n")
}

/// Which replica it is.
fn append_front(
    out: &mut Vec<u8>,
    ckpt: CkptId,
    node: NodeId,
    active: bool,
) -> Result<(), AllocError>
    ensures { OnOk result (out.new.items ≡ out.old.items ++ replica_front ckpt node active) }
{
    append_ckpt(out, ckpt)?;
    append_text(out, " ")?;
    append_node(out, node)?;
    append_star(out, active)
}

/// Its own generation, and how many updates it has.
fn append_counts(out: &mut Vec<u8>, generation: u64, count: u64) -> Result<(), AllocError>
    ensures { OnOk result (out.new.items ≡ out.old.items ++ replica_counts generation count) }
{
    append_counted(out, " g", generation)?;
    append_counted(out, " u", count)
}

/// The star of the active.
fn append_star(out: &mut Vec<u8>, active: bool) -> Result<(), AllocError>
    ensures { OnOk result (out.new.items ≡ out.old.items ++ star_text active) }
{
    if active {
        append_text(out, "*")
    } else {
        Ok(())
    }
}

/// What stands on a replica for a call.
fn append_slot(out: &mut Vec<u8>, slot: &ShownSlot) -> Result<(), AllocError>
    ensures { OnOk result (out.new.items ≡ out.old.items ++ slot_text slot.now) }
{
    match slot {
        ShownSlot::Free => append_text(out, " free"),
        ShownSlot::Held(call) => append_of_call(out, " held ", *call),
        ShownSlot::Mark(call) => append_of_call(out, " mark ", *call),
    }
}

/// Each section in order.
fn append_sections(out: &mut Vec<u8>, sections: &[ShownSection]) -> Result<(), AllocError>
    ensures { OnOk result (out.new.items ≡ out.old.items ++ flat_map shown_section_text sections.now) }
{
    for section in sections {
        append_shown_section(out, section)?;
    }
    Ok(())
}

/// A section and its first bytes.
fn append_shown_section(out: &mut Vec<u8>, section: &ShownSection) -> Result<(), AllocError>
    ensures { OnOk result (out.new.items ≡ out.old.items ++ shown_section_text section.now) }
{
    append_spaced_bytes(out, section.descriptor.id.as_slice())?;
    append_spaced_state(out, section.descriptor.state)?;
    append_spaced_time(out, section.descriptor.expiration)?;
    append_spaced(out, section.descriptor.size)?;
    append_spaced_bytes(out, section.first.as_slice())
}
