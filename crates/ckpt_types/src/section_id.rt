//! The identifiers of sections, and their order.
ghost use Rattle.std.specs.Prelude.{◌≡◌, ◌+◌, ◌-◌, ◌≤◌, ◌++◌, List, [], ℕ, SomeIff, Some, length, take, drop, replicate, nat_eq, refl};
ghost use Rattle.std.specs.Hash as fed;
ghost use Rattle.std.specs.Cmp;
ghost use Rattle.std.specs.Cmp.Lexicographic.{pointwise, slice_cmp, nat_list_eq_equiv, nat_list_cmp_total, texts_ties, texts_po};
ghost use Rattle.std.specs.Cmp.Rules.{hashing};
ghost use Rattle.std.specs.Ordering.{nat_cmp};
ghost use Rattle.std.proofs.Common.{rules};
ghost use Rattle.ckpt_types.specs.Limits.{section_id_max};

use crate::limits::SECTION_ID_MAX;
use std::cmp::Ordering;
use std::hash::{Hash, Hasher};
use std::marker::Model;

/// The identifier of a section: at most 256 bytes, kept in place. Identifiers are ordered by their
/// bytes, a proper prefix first.
#[derive(Clone, Copy, Debug)]
pub struct SectionId {
    bytes: [u8; SECTION_ID_MAX],
    len: usize,
}

impl Model for SectionId {
    ghost use Rattle.std.specs.Prelude.{List, ℕ};

    ghost Value = { List ℕ };

    ghost use Rattle.ckpt_types.specs.SectionId.{used_bytes, IsPadded, padded_bytes, padded_bytes-used};

    ghost view = { used_bytes };

    ghost invariant = { IsPadded };

    ghost inverse = { padded_bytes };

    ghost inverse_ok = { padded_bytes-used };
}

impl SectionId {
    /// The identifier of these bytes; none exactly for more than 256.
    pub fn from_slice(bytes: &[u8]) -> Option<SectionId>
        ensures { SomeIff result (length bytes.now ≤ section_id_max) bytes.now }
    {
        let len = bytes.len();
        if len > SECTION_ID_MAX {
            return None;
        }
        let mut padded = [0; SECTION_ID_MAX];
        fill_front(&mut padded, bytes);
        Some(SectionId { bytes: padded, len })
    }

    /// The bytes in order.
    pub fn as_slice(&self) -> &[u8]
        ensures { result.now ≡ self.now }
    {
        &self.bytes[..self.len]
    }
}

/// The identifier of the default section, which has no bytes.
impl Default for SectionId {
    ghost is_default = { λ id. id ≡ [] };

    fn default() -> SectionId {
        SectionId {
            bytes: [0; SECTION_ID_MAX],
            len: 0,
        }
    }
}

impl PartialEq for SectionId {
    ghost eq = { pointwise nat_eq };

    ghost laws = { Cmp.partial_equiv_from_equiv nat_list_eq_equiv };

    fn eq(&self, other: &SectionId) -> bool {
        self.as_slice() == other.as_slice()
    }
}

impl Eq for SectionId {
    ghost laws = { nat_list_eq_equiv };
}

impl PartialOrd for SectionId {
    ghost partial_cmp = { λ a b. Some (slice_cmp nat_cmp a b) };

    ghost laws = { texts_po };

    fn partial_cmp(&self, other: &SectionId) -> Option<Ordering> {
        Some(self.cmp(other))
    }
}

impl Ord for SectionId {
    ghost cmp = { slice_cmp nat_cmp };

    ghost total = { nat_list_cmp_total };

    ghost matches_partial_cmp = { λ a b. refl };

    ghost matches_eq = { texts_ties };

    fn cmp(&self, other: &SectionId) -> Ordering {
        self.as_slice().cmp(other.as_slice())
    }
}

impl Hash for SectionId {
    ghost hash_input = { fed.slice fed.u8 };

    ghost respects_eq = { Prim.search (hashing, rules) };

    fn hash<H: Hasher>(&self, state: &mut H) {
        self.as_slice().hash(state);
    }
}

/// Copies the bytes to the front.
pub(crate) fn fill_front(all: &mut [u8], bytes: &[u8])
    requires { length bytes.now ≤ length all.old }
    ensures { all.new ≡ bytes.now ++ drop (length bytes.now) all.old }
{
    all[..bytes.len()].copy_from_slice(bytes);
}
