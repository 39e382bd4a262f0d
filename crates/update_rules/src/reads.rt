//! When a read is refused, and at which element.
ghost use Rattle.std.specs.Prelude.{◌≡◌, ◌^◌, ◌<◌, length};
ghost use Rattle.ckpt_types.specs.Reads.{read};
ghost use Rattle.update_rules.specs.Told.{check_answer};

use crate::present::size_present;
use crate::refused::Refused;
use ckpt_types::{AisError, Moment, ReadElement, Sections};

/// Refuses a read that the rules refuse: the first element whose section is not present, or whose offset
/// is past the end of its section.
pub fn check_read<S: Sections>(
    sections: &S,
    elements: &[ReadElement],
    now: Moment,
) -> Result<(), Refused>
    requires { length elements.now < 2 ^ 32 }
    ensures { result ≡ check_answer (read elements.now now (S.sections sections.now)) }
{
    // The clause of `len` tells that the identifiers rise.
    let _count = sections.len();
    for (place, element) in elements.iter().enumerate() {
        let index = place as u32;
        let Some(size) = size_present(sections, element.id.as_slice(), now) else {
            return Err(Refused {
                error: AisError::NotExist,
                index,
            });
        };
        if element.offset > size {
            return Err(Refused {
                error: AisError::InvalidParam,
                index,
            });
        }
    }
    Ok(())
}
