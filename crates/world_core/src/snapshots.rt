//! The background snapshots: of each checkpoint whose updates go to its active alone, the room for one, and what was
//! pulled last.
ghost use Rattle.std.specs.Prelude.{◌≡◌, ◌<◌, [], None, Some, false, length, IfOk, IfSome, IsSomeAnd, MatchOption, OnErr, OnOk, is_some};
ghost use Rattle.ckpt_types.specs.Attributes.{is_malformed};
ghost use Rattle.ckpt_types.specs.Sections.{Fits};
ghost use Rattle.cluster_record.specs.Places.{change_key, place_key};
ghost use Rattle.cluster_record.specs.RecordState.{entry_of};
ghost use Rattle.replica.specs.Replicas.{pull_result};
ghost use Rattle.weak_marks.specs.Marks.{call_of};
ghost use Rattle.world_core.specs.Backgrounds.{background_in, background_key, backgrounds_left, pulled_in, filled_from, where_pulled, with_room_for};

use ckpt_types::{CkptId, CreationAttributes, Held};
use client_calls::is_all;
use cluster_record::Record;
use node_core::pull_whole;
use replica::Replica;
use snap_copy::Snap;
use std::alloc::{AllocError, Global};
use std::marker::Model;

/// The background snapshots, in the order in which their checkpoints were made.
#[derive(Drop)]
pub struct Snapshots {
    list: Vec<Background>,
}

/// The snapshot of a checkpoint.
#[derive(Drop)]
pub struct Background {
    pub ckpt: CkptId,
    /// What was pulled last; before the first pull it is room alone.
    pub snap: Snap,
    /// Whether anything was pulled.
    pub pulled: bool,
}

impl Model for Snapshots {
    ghost use Rattle.std.specs.Prelude.{List};
    ghost use Rattle.world_core.specs.declared.snapshots.Background.{Background};

    ghost Value = { List Background };

    ghost view = { λ snapshots. snapshots.list.items };
}

impl Snapshots {
    /// No snapshot, and no room for one.
    pub fn new(alloc: Global) -> Snapshots
        ensures { result ≡ [] }
    {
        Snapshots {
            list: Vec::new(alloc),
        }
    }

    /// Equal snapshots in the same order, with room of their own.
    pub fn copy(&self, alloc: Global) -> Result<Snapshots, AllocError>
        ensures { IfOk result (λ copy. copy ≡ self.now) }
    {
        Ok(Snapshots {
            list: copy_backgrounds(alloc, self.list.as_slice())?,
        })
    }

    /// Room for the snapshot of a checkpoint that is to be made, for all that it declares, unless its updates are on
    /// all replicas. Where memory is refused, nothing changes.
    pub fn make_room(
        &mut self,
        alloc: Global,
        ckpt: CkptId,
        attributes: &CreationAttributes,
    ) -> Result<(), AllocError>
        requires { is_malformed attributes.now ≡ false }
        ensures ok { OnOk result (self.new ≡ with_room_for ckpt attributes.now self.old) }
        ensures err { OnErr result (self.new ≡ self.old) }
    {
        if is_all(attributes) {
            return Ok(());
        }
        self.list.reserve(1)?;
        let snap = Snap::reserve(alloc, attributes)?;
        self.list.push_reserved(Background {
            ckpt,
            snap,
            pulled: false,
        });
        Ok(())
    }

    /// The snapshot of a checkpoint has what the replica has, unless the marks of a weak write hold it off. It takes
    /// no memory.
    pub fn pull(&mut self, ckpt: CkptId, replica: &Replica) -> Result<(), Held>
        requires { IsSomeAnd (background_in self.old ckpt) (λ b. b.snap.attributes ≡ replica.now.attributes) }
        ensures answer { result ≡ pull_result (call_of replica.now.marks) }
        ensures new { self.new ≡ change_key background_key ckpt (filled_from replica.now) self.old }
    {
        pull_at(self.list.as_mut_slice(), ckpt, replica)
    }

    /// What was pulled last of a checkpoint, if anything was. Its sections keep to what the checkpoint declares.
    pub fn pulled(&self, ckpt: CkptId) -> Option<&Snap>
        ensures found { MatchOption result (pulled_in self.now ckpt ≡ None) (λ snap. pulled_in self.now ckpt ≡ Some snap.now) }
        ensures fits { IfSome result (λ snap. Fits snap.now.attributes snap.now.sections) }
    {
        pulled_at(self.list.as_slice(), ckpt)
    }

    /// The snapshots go whose checkpoint has no entry in the record. It takes no memory.
    pub fn free_gone(&mut self, seen: &Record)
        ensures { self.new ≡ backgrounds_left seen.now.entries self.old }
    {
        keep_there(&mut self.list, seen);
    }
}

fn copy_backgrounds(alloc: Global, snapshots: &[Background]) -> Result<Vec<Background>, AllocError>
    ensures { IfOk result (λ copies. copies.items ≡ snapshots.now) }
{
    let mut copies = Vec::with_capacity(alloc, snapshots.len())?;
    for background in snapshots {
        copies.push_reserved(background.copy(alloc)?);
    }
    Ok(copies)
}

impl Background {
    fn copy(&self, alloc: Global) -> Result<Background, AllocError>
        ensures { IfOk result (λ copy. copy ≡ self.now) }
    {
        Ok(Background {
            ckpt: self.ckpt,
            snap: self.snap.copy(alloc)?,
            pulled: self.pulled,
        })
    }
}

fn place_of(snapshots: &[Background], ckpt: CkptId) -> Option<usize>
    ensures place { result ≡ place_key background_key ckpt snapshots.now }
    ensures within { IfSome result (λ i. i < length snapshots.now) }
{
    for i in 0..snapshots.len() {
        if snapshots[i].ckpt == ckpt {
            return Some(i);
        }
    }
    None
}

fn pull_at(snapshots: &mut [Background], ckpt: CkptId, replica: &Replica) -> Result<(), Held>
    requires { IsSomeAnd (background_in snapshots.old ckpt) (λ b. b.snap.attributes ≡ replica.now.attributes) }
    ensures answer { result ≡ pull_result (call_of replica.now.marks) }
    ensures new { snapshots.new ≡ change_key background_key ckpt (filled_from replica.now) snapshots.old }
{
    let Some(i) = place_of(snapshots, ckpt) else {
        unreachable!()
    };
    let background = &mut snapshots[i];
    pull_into(background, replica)
}

fn pull_into(background: &mut Background, replica: &Replica) -> Result<(), Held>
    requires { background.old.snap.attributes ≡ replica.now.attributes }
    ensures answer { result ≡ pull_result (call_of replica.now.marks) }
    ensures new { background.new ≡ filled_from replica.now background.old }
{
    pull_whole(replica, &mut background.snap)?;
    background.pulled = true;
    Ok(())
}

fn pulled_at(snapshots: &[Background], ckpt: CkptId) -> Option<&Snap>
    ensures found { MatchOption result (pulled_in snapshots.now ckpt ≡ None) (λ snap. pulled_in snapshots.now ckpt ≡ Some snap.now) }
    ensures fits { IfSome result (λ snap. Fits snap.now.attributes snap.now.sections) }
{
    let i = place_of(snapshots, ckpt)?;
    where_pulled(&snapshots[i])
}

fn where_pulled(background: &Background) -> Option<&Snap>
    ensures found { MatchOption result (where_pulled (Some background.now) ≡ None) (λ snap. where_pulled (Some background.now) ≡ Some snap.now) }
    ensures fits { IfSome result (λ snap. Fits snap.now.attributes snap.now.sections) }
{
    if !background.pulled {
        return None;
    }
    // The clause of `attributes` tells that its sections keep to them.
    let _declared = background.snap.attributes();
    Some(&background.snap)
}

fn keep_there(snapshots: &mut Vec<Background>, seen: &Record)
    ensures { snapshots.new.items ≡ backgrounds_left seen.now.entries snapshots.old.items }
{
    snapshots.retain(|background| has_entry(background, seen));
}

fn has_entry(background: &Background, seen: &Record) -> bool
    ensures { result ≡ is_some (entry_of background.now.ckpt seen.now.entries) }
{
    seen.entry(background.ckpt).is_some()
}
