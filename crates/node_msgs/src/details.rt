//! What is told beside the outcome of a call.
use ckpt_types::{Apart, Callback, CheckpointDescriptor, Elements, Pieces, SectionDescriptor};

/// The details of an answer, which are told beside the outcome of the call. Most come beside the reply that ends it.
#[derive(Drop)]
pub enum Details {
    /// Nothing is told beside it.
    Nothing,
    /// The bytes of a read in the order of its elements, or the identifier of a section that was made.
    Pieces(Pieces),
    /// The next section of an iteration.
    Section(Apart<SectionDescriptor>),
    /// The status of a checkpoint.
    Status(Apart<CheckpointDescriptor>),
    /// The callbacks that a dispatch gives, in the order in which their calls ended.
    Callbacks(Apart<Elements<Callback>>),
}
