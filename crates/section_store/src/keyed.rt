//! Identifiers beside a number of their first bytes, by which they are compared fast.
ghost use Rattle.std.specs.Prelude.{◌≡◌, ◌<◌, get_or, nat_eq};
ghost use Rattle.std.specs.Cmp.Lexicographic.{pointwise};
ghost use Rattle.ckpt_types.specs.Sections.{id_cmp};
ghost use Rattle.ckpt_types.specs.Updates.{numbered_id};
ghost use Rattle.section_store.specs.Keys.{key_of, AreBytes};

use ckpt_types::SectionId;
use std::cmp::Ordering;
use std::marker::Model;

/// The bytes of an identifier that its key tells.
const KEY_BYTES: usize = 8;

/// An identifier beside its key, which tells most of them apart at one comparison.
#[derive(Drop)]
pub(crate) struct Keyed {
    id: SectionId,
    key: u64,
}

impl Model for Keyed {
    ghost use Rattle.std.specs.Prelude.{List, ℕ};

    ghost Value = { List ℕ };

    ghost use Rattle.section_store.specs.Keyed.{IsKeyed};

    ghost view = { λ k. k.id };

    ghost invariant = { IsKeyed };
}

impl Keyed {
    /// The identifier, with its key.
    pub fn of(id: &SectionId) -> Keyed
        ensures { result ≡ id.now }
    {
        let key = key_of(id.as_slice());
        Keyed { id: *id, key }
    }

    /// It becomes another identifier, which is copied to where it stays.
    pub fn set(&mut self, id: &SectionId)
        ensures { self.new ≡ id.now }
    {
        self.key = key_of(id.as_slice());
        self.id = *id;
    }

    /// The identifier.
    pub fn id(&self) -> &SectionId
        ensures { result.now ≡ self.now }
    {
        &self.id
    }

    /// Its first bytes as a number, the highest first, with zeros behind a shorter one.
    pub fn key(&self) -> u64
        ensures { result ≡ key_of self.now }
    {
        self.key
    }

    /// Whether it is this identifier.
    #[inline(always)]
    pub fn is_id(&self, id: &[u8]) -> bool
        ensures { result ≡ pointwise nat_eq self.now id.now }
    {
        self.id.as_slice() == id
    }

    /// Whether it is the identifier that the service makes of this number.
    pub fn is_number(&self, number: u64) -> bool
        ensures { result ≡ pointwise nat_eq self.now (numbered_id number) }
    {
        self.key == number && self.id.as_slice().len() == KEY_BYTES
    }
}

/// How an identifier, which has this key, compares with another.
#[inline(always)]
pub(crate) fn compare(id: &[u8], key: u64, other: &Keyed) -> Ordering
    requires key { key ≡ key_of id.now }
    requires bytes { AreBytes id.now }
    ensures { result ≡ id_cmp id.now other.now }
{
    if key < other.key {
        Ordering::Less
    } else if key > other.key {
        Ordering::Greater
    } else {
        compare_equal_keys(id, other.id.as_slice())
    }
}

/// How two identifiers of one key compare: where both have no more bytes than it tells, the longer one follows.
#[inline(always)]
fn compare_equal_keys(id: &[u8], other: &[u8]) -> Ordering
    requires keys { key_of id.now ≡ key_of other.now }
    requires bytes { AreBytes id.now }
    requires other_bytes { AreBytes other.now }
    ensures { result ≡ id_cmp id.now other.now }
{
    if id.len() <= KEY_BYTES && other.len() <= KEY_BYTES {
        id.len().cmp(&other.len())
    } else {
        compare_bytes(id, other)
    }
}

/// How two identifiers compare, byte by byte. It stands apart from the loop of a look-up, which seldom comes here.
#[inline(never)]
fn compare_bytes(id: &[u8], other: &[u8]) -> Ordering
    ensures { result ≡ id_cmp id.now other.now }
{
    id.cmp(other)
}

/// The first bytes as a number, the highest first, with zeros behind fewer.
pub(crate) fn key_of(bytes: &[u8]) -> u64
    ensures key { result ≡ key_of bytes.now }
    ensures bytes { AreBytes bytes.now }
{
    let mut key: u64 = 0;
    for place in 0..KEY_BYTES {
        key = key * 256 + byte_at(bytes, place);
    }
    key
}

/// The byte at a place, and 0 behind them all.
fn byte_at(bytes: &[u8], place: usize) -> u64
    ensures byte { result ≡ get_or bytes.now place 0 }
    ensures small { result < 256 }
{
    if place < bytes.len() {
        u64::from(bytes[place])
    } else {
        0
    }
}
