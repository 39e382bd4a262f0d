//! What a caller lends to a step, so that the step takes no memory.
ghost use Rattle.std.specs.Prelude.{◌≡◌};
ghost use Rattle.node_core.specs.Lending.{nothing_lent};

use ckpt_types::{
    Apart, CheckpointDescriptor, ReadBuf, SectionDescriptor, SharedReads, SharedUpdate,
};
use section_iter::Iteration;
use snap_copy::Snap;

/// What travels beside a request, and what comes beside its reply.
#[derive(Drop)]
pub struct Lent {
    /// Where a read puts its pieces, and an update the identifier of a new section.
    pub read: Option<ReadBuf>,
    /// The elements of a read.
    pub vector: Option<SharedReads>,
    /// The update of a stage, of an update in one step or of a weak write, each of which uses it up.
    pub update: Option<SharedUpdate>,
    /// The iteration that starts or goes on.
    pub iteration: Option<Iteration>,
    /// The snapshot that is pulled or installed.
    pub snap: Option<Snap>,
    /// Where a status is told.
    pub status: Option<Apart<CheckpointDescriptor>>,
    /// Where the next section of an iteration is told.
    pub section: Option<Apart<SectionDescriptor>>,
}

impl Lent {
    /// Nothing is lent.
    pub fn nothing() -> Lent
        ensures { result ≡ nothing_lent }
    {
        Lent {
            read: None,
            vector: None,
            update: None,
            iteration: None,
            snap: None,
            status: None,
            section: None,
        }
    }
}
