//! Strings of bytes, of which the short ones take no memory; and the names of checkpoints.
ghost use Rattle.std.specs.Prelude.{◌≡◌, ◌≤◌, ◌↔◌, List, [], ℕ, IfOk, IsTrue, length, nat_eq};
ghost use Rattle.std.specs.Hash as fed;
ghost use Rattle.std.specs.Cmp.Lexicographic.{pointwise, nat_list_eq_equiv};
ghost use Rattle.std.specs.Cmp.Rules.{hashing};
ghost use Rattle.std.proofs.Common.{rules};
ghost use Rattle.std.specs.Cmp;
ghost use Rattle.ckpt_types.specs.Limits.{name_max};

use crate::limits::NAME_MAX;
use crate::section_id::fill_front;
use crate::shared::Shared;
use std::alloc::{AllocError, Global};
use std::hash::{Hash, Hasher};
use std::marker::Model;

/// How many bytes lie in place.
const SHORT_MAX: usize = 30;

/// A string of bytes: a checkpoint's name, the identifier of a section that a line names, or the data of
/// a section. A short one lies in place.
#[derive(Drop)]
pub struct Bytes {
    text: Text,
}

#[derive(Drop)]
enum Text {
    /// So many bytes, at the front.
    Short(u8, [u8; SHORT_MAX]),
    /// Bytes in a list.
    Long(Vec<u8>),
}

impl Model for Bytes {
    ghost use Rattle.std.specs.Prelude.{List, ℕ};

    ghost Value = { List ℕ };

    ghost use Rattle.ckpt_types.specs.Bytes.{bytes_in, IsWithin};

    ghost view = { λ bytes. bytes_in bytes.text };

    ghost invariant = { λ bytes. IsWithin bytes.text };
}

impl Bytes {
    /// A copy of the bytes.
    pub fn from_slice(alloc: Global, bytes: &[u8]) -> Result<Bytes, AllocError>
        ensures { IfOk result (λ copy. copy ≡ bytes.now) }
    {
        let len = bytes.len();
        if len > SHORT_MAX {
            let items = Vec::from_slice(alloc, bytes)?;
            return Ok(Bytes::from_vec(items));
        }
        let mut front = [0; SHORT_MAX];
        fill_front(&mut front, bytes);
        Ok(Bytes {
            text: Text::Short(len as u8, front),
        })
    }

    /// The bytes of a list. It takes no memory.
    pub fn from_vec(items: Vec<u8>) -> Bytes
        ensures { result ≡ items.items }
    {
        Bytes {
            text: Text::Long(items),
        }
    }

    /// The bytes in order.
    pub fn as_slice(&self) -> &[u8]
        ensures { result.now ≡ self.now }
    {
        match &self.text {
            Text::Short(len, front) => &front[..*len as usize],
            Text::Long(items) => items.as_slice(),
        }
    }
}

/// No bytes.
impl Default for Bytes {
    ghost is_default = { λ bytes. bytes ≡ [] };

    fn default() -> Bytes {
        Bytes {
            text: Text::Short(0, [0; SHORT_MAX]),
        }
    }
}

impl Clone for Bytes {
    ghost is_clone = { λ bytes copy. copy ≡ bytes };

    fn clone(&self) -> Result<Bytes, AllocError> {
        match &self.text {
            Text::Short(len, front) => Ok(Bytes {
                text: Text::Short(*len, *front),
            }),
            Text::Long(items) => Bytes::from_slice(*items.allocator(), items.as_slice()),
        }
    }
}

impl PartialEq for Bytes {
    ghost eq = { pointwise nat_eq };

    ghost laws = { Cmp.partial_equiv_from_equiv nat_list_eq_equiv };

    fn eq(&self, other: &Bytes) -> bool {
        self.as_slice() == other.as_slice()
    }
}

impl Eq for Bytes {
    ghost laws = { nat_list_eq_equiv };
}

impl Hash for Bytes {
    ghost hash_input = { fed.slice fed.u8 };

    ghost respects_eq = { Prim.search (hashing, rules) };

    fn hash<H: Hasher>(&self, state: &mut H) {
        self.as_slice().hash(state);
    }
}

/// The name of a checkpoint that an operation, its driver and the log share.
pub type SharedName = Shared<Bytes>;

/// Whether the bytes fit as a checkpoint's name: 1 to 256 of them.
pub fn name_fits(name: &Bytes) -> bool
    ensures { IsTrue result ↔ ((1 ≤ length name.now) × (length name.now ≤ name_max)) }
{
    let len = name.as_slice().len();
    1 <= len && len <= NAME_MAX
}
