//! What is told of an update or a read that is refused.
ghost use Rattle.std.specs.Prelude.{◌≡◌, Err};

use ckpt_types::AisError;

/// Why an update or a read is refused.
#[derive(Clone, Copy)]
pub struct Refused {
    /// The error that the call answers.
    pub error: AisError,
    /// The index of the refused element of a vector, from 0; 0 for an update that has no vector.
    pub index: u32,
}

/// Refuses an update that has no vector, or the first element of one.
pub(crate) fn refuse<T>(error: AisError) -> Result<T, Refused>
    ensures { result ≡ Err (record { error = error; index = 0 }) }
{
    Err(Refused { error, index: 0 })
}
