//! What an entry of a journal keeps of what travelled beside its step.
ghost use Rattle.std.specs.Prelude.{◌≡◌};
ghost use Rattle.shared_nodes.specs.declared.kept.Kept.TheVariants as kept;

use ckpt_types::{SharedReads, SharedUpdate};
use snap_copy::Snap;

/// What travelled beside a step, as far as the node becomes by it what it becomes, or answers what it answers.
#[derive(Drop)]
pub enum Kept {
    /// The step needs no more than what the record showed.
    Nothing,
    /// A share of the update of a stage, of an update in one step or of a weak write.
    Update(SharedUpdate),
    /// A share of the elements of a read.
    Elements(SharedReads),
    /// An equal snapshot to the one that was installed or taken.
    Snapshot(Snap),
}

impl Kept {
    /// An equal snapshot, in the room of another that was reserved for the same attributes. It takes no memory.
    pub fn copied(room: Snap, from: &Snap) -> Kept
        requires { room.attributes ≡ from.now.attributes }
        ensures { result ≡ kept.Snapshot from.now }
    {
        let mut room = room;
        let _declared = from.attributes();
        room.pull(from, from.generation(), from.count());
        Kept::Snapshot(room)
    }
}
