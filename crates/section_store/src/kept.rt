//! The sections in the order of their identifiers: their bytes in one buffer, and what is kept beside them in one table.
ghost use Rattle.std.specs.Prelude.{◌≡◌, ◌+◌, ◌-◌, ◌≤◌, ◌<◌, ◌^◌, ◌++◌, ◌∷◌, [], length, take, sum_by, insert, remove, slice_get, slice_index_or, vec_capacity, Some, IfOk};
ghost use Rattle.ckpt_types.specs.Sections.{Rises, present, is_present, size_of, memory_used, section_of as lent_section};
ghost use Rattle.ckpt_types.specs.Updates.{written};
ghost use Rattle.ckpt_types.specs.declared.sections.SectionState.TheVariants.{Valid, Corrupted};
ghost use Rattle.section_store.specs.Kept.{sections_at, AreKept};
ghost use Rattle.section_store.specs.KeptState.{section_in};
ghost use Rattle.section_store.specs.Places.{changed_at};
ghost use Rattle.section_store.specs.RegionState.{with_string};

use crate::keyed::Keyed;
use crate::region::Region;
use ckpt_types::{Moment, SectionRef, SectionState, Sections};
use moment_rules::expired;
use std::alloc::{AllocError, Global};
use std::marker::Model;

/// What is kept of a section beside its bytes.
#[derive(Drop)]
pub(crate) struct Head {
    /// Its identifier.
    pub id: Keyed,
    /// The moment from which on it is absent.
    pub expiration: Moment,
    /// Whether it has what was written.
    pub state: SectionState,
    /// The moment of the last update of its bytes.
    pub last_update: Moment,
}

/// The sections in the order of their identifiers. Each stays in the slot in which it was put; what moves is the order
/// of the slots.
#[derive(Drop)]
pub(crate) struct Kept {
    /// The bytes of each slot. A free one has none.
    region: Region,
    /// What is kept beside the bytes of each slot.
    heads: Vec<Head>,
    /// The slots of the sections, in the order of the identifiers, and behind them the free ones.
    order: Vec<u32>,
    /// How many sections there are.
    count: usize,
}

impl Model for Kept {
    ghost use Rattle.section_store.specs.KeptState.{KeptState};

    ghost Value = { KeptState };

    ghost use Rattle.section_store.specs.Kept.{kept_state, HasSlots};

    ghost view = { kept_state };

    ghost invariant = { HasSlots };
}

impl Kept {
    /// Room for so many bytes, and for so many sections. None of it is touched.
    pub fn reserve(alloc: Global, size: usize, places: u32) -> Result<Kept, AllocError>
        ensures { IfOk result (λ k. k ≡ record { sections = []; size = size; places = places }) }
    {
        Ok(Kept {
            region: Region::reserve(alloc, size, places)?,
            heads: Vec::with_capacity(alloc, places as usize)?,
            order: Vec::with_capacity(alloc, places as usize)?,
            count: 0,
        })
    }

    /// How many sections there are.
    pub fn len(&self) -> usize
        ensures { result ≡ length self.now.sections }
    {
        self.count
    }

    /// The section at a place.
    pub fn section(&self, place: usize) -> SectionRef<'_>
        requires { place < length self.now.sections }
        ensures { slice_get self.now.sections place ≡ Some (lent_section result) }
    {
        let slot = self.order[place] as usize;
        let head = &self.heads[slot];
        SectionRef {
            id: head.id.id(),
            bytes: self.region.bytes(slot),
            expiration: head.expiration,
            state: head.state,
            last_update: head.last_update,
        }
    }

    /// The identifier of the section at a place.
    #[inline(always)]
    pub fn id(&self, place: usize) -> &Keyed
        requires { place < length self.now.sections }
        ensures { result.now ≡ (section_in self.now place).id }
    {
        &self.heads[self.order[place] as usize].id
    }

    /// The bytes of the section at a place.
    pub fn bytes(&self, place: usize) -> &[u8]
        requires { place < length self.now.sections }
        ensures { result.now ≡ (section_in self.now place).bytes }
    {
        self.region.bytes(self.order[place] as usize)
    }

    /// How many bytes the section at a place has.
    pub fn size(&self, place: usize) -> usize
        requires { place < length self.now.sections }
        ensures { result ≡ size_of (section_in self.now place) }
    {
        self.region.len_at(self.order[place] as usize)
    }

    /// The moment from which on the section at a place is absent.
    pub fn expiration(&self, place: usize) -> Moment
        requires { place < length self.now.sections }
        ensures { result ≡ (section_in self.now place).expiration }
    {
        self.heads[self.order[place] as usize].expiration
    }

    /// Whether the section at a place is present.
    pub fn is_present(&self, place: usize, now: Moment) -> bool
        requires { place < length self.now.sections }
        ensures { result ≡ is_present now (section_in self.now place) }
    {
        !expired(self.expiration(place), now)
    }

    /// Writes into the section at a place, with zeros in a gap, and says how many bytes more it has.
    #[inline(always)]
    pub fn write_into(&mut self, place: usize, offset: usize, bytes: &[u8], now: Moment) -> usize
        requires there { place < length self.old.sections }
        requires fits { memory_used (changed_at (λ s. record s { bytes = written s.bytes offset bytes.now; last_update = now }) place self.old.sections) ≤ self.old.size }
        ensures kept { self.new ≡ record self.old { sections = changed_at (λ s. record s { bytes = written s.bytes offset bytes.now; last_update = now }) place self.old.sections } }
        ensures grown { memory_used self.new.sections ≡ memory_used self.old.sections + result }
    {
        let slot = self.order[place] as usize;
        let grown = write_grown(&mut self.region, slot, offset, bytes);
        self.heads[slot].last_update = now;
        grown
    }

    /// Puts these bytes in the place of those of the section at a place, and says how many it had.
    pub fn overwrite(&mut self, place: usize, bytes: &[u8], now: Moment) -> usize
        requires there { place < length self.old.sections }
        requires fits { memory_used (changed_at (λ s. record s { bytes = bytes.now; state = Valid; last_update = now }) place self.old.sections) ≤ self.old.size }
        ensures kept { self.new ≡ record self.old { sections = changed_at (λ s. record s { bytes = bytes.now; state = Valid; last_update = now }) place self.old.sections } }
        ensures before { memory_used self.new.sections + result ≡ memory_used self.old.sections + length bytes.now }
    {
        let slot = self.order[place] as usize;
        let before = self.region.len_at(slot);
        replace(&mut self.region, slot, bytes);
        let head = &mut self.heads[slot];
        head.state = SectionState::Valid;
        head.last_update = now;
        before
    }

    /// Gives the section at a place another expiration.
    pub fn expire(&mut self, place: usize, expiration: Moment)
        requires { place < length self.old.sections }
        ensures { self.new ≡ record self.old { sections = changed_at (λ s. record s { expiration = expiration }) place self.old.sections } }
    {
        let slot = self.order[place] as usize;
        self.heads[slot].expiration = expiration;
    }

    /// Makes the section at a place a corrupted one.
    pub fn corrupt(&mut self, place: usize)
        requires { place < length self.old.sections }
        ensures { self.new ≡ record self.old { sections = changed_at (λ s. record s { state = Corrupted }) place self.old.sections } }
    {
        let slot = self.order[place] as usize;
        self.heads[slot].state = SectionState::Corrupted;
    }

    /// Puts a section in at a place. It takes no memory.
    pub fn put_in(&mut self, place: usize, section: &SectionRef<'_>)
        requires place { place ≤ length self.old.sections }
        requires places { length self.old.sections < self.old.places }
        requires fits { memory_used self.old.sections + length section.now.bytes.now ≤ self.old.size }
        ensures { self.new ≡ record self.old { sections = insert self.old.sections place (lent_section section.now) } }
    {
        let count = self.count;
        self.count += 1;
        if count < self.order.len() {
            let slot = bring(&mut self.order, count, place);
            replace(&mut self.region, slot, section.bytes);
            fill(&mut self.heads[slot], section);
            return;
        }
        put_slot(&mut self.order, place, count as u32);
        self.region.push(section.bytes);
        self.heads.push_reserved(head_of(section));
    }

    /// Takes the section at a place away, and says how many bytes it had.
    pub fn take_out(&mut self, place: usize) -> usize
        requires there { place < length self.old.sections }
        ensures kept { self.new ≡ record self.old { sections = remove self.old.sections place } }
        ensures before { memory_used self.new.sections + result ≡ memory_used self.old.sections }
    {
        self.count -= 1;
        let slot = bring(&mut self.order, place, self.count);
        let before = self.region.len_at(slot);
        self.region.resize(slot, 0);
        before
    }

    /// Takes the sections away that are absent.
    pub fn drop_absent(&mut self, now: Moment)
        ensures { self.new ≡ record self.old { sections = present now self.old.sections } }
    {
        self.count = keep_present(
            &mut self.region,
            &self.heads,
            &mut self.order,
            self.count,
            now,
        );
    }

    /// Takes over the sections of another. It takes no memory.
    pub fn copy_from<S: Sections>(&mut self, other: &S)
        requires places { length (S.sections other.now) ≤ self.old.places }
        requires fits { memory_used (S.sections other.now) ≤ self.old.size }
        ensures kept { self.new ≡ record self.old { sections = S.sections other.now } }
        ensures rises { Rises (S.sections other.now) }
    {
        self.count = copy_in(&mut self.region, &mut self.heads, &mut self.order, other);
    }
}

/// Puts copies of all sections in the place of those that were kept, each into the slot of its place, and says how many
/// they are. It takes no memory.
fn copy_in<S: Sections>(
    region: &mut Region,
    heads: &mut Vec<Head>,
    order: &mut Vec<u32>,
    from: &S,
) -> usize
    requires places { length (S.sections from.now) ≤ region.old.spare + length region.old.strings }
    requires fits { memory_used (S.sections from.now) ≤ region.old.size }
    requires small { region.old.spare + length region.old.strings < 2 ^ 32 }
    requires heads_room { region.old.spare + length region.old.strings ≤ vec_capacity heads.old }
    requires order_room { region.old.spare + length region.old.strings ≤ vec_capacity order.old }
    ensures sections { sections_at heads.new.items region.new.strings (take result order.new.items) ≡ S.sections from.now }
    ensures rises { Rises (S.sections from.now) }
    ensures kept { AreKept heads.new.items region.new.strings order.new.items result }
    ensures fits { sum_by length region.new.strings ≤ region.new.size }
    ensures size { region.new.size ≡ region.old.size }
    ensures places { region.new.spare + length region.new.strings ≡ region.old.spare + length region.old.strings }
    ensures heads_capacity { vec_capacity heads.new ≡ vec_capacity heads.old }
    ensures order_capacity { vec_capacity order.new ≡ vec_capacity order.old }
{
    region.clear();
    heads.clear();
    order.clear();
    let count = from.len();
    for place in 0..count {
        let section = from.at(place);
        add(region, heads, order, &section);
    }
    count
}

/// Puts a copy of a section behind the others, into a slot more. It takes no memory.
#[inline(always)]
fn add(region: &mut Region, heads: &mut Vec<Head>, order: &mut Vec<u32>, section: &SectionRef<'_>)
    requires kept { AreKept heads.old.items region.old.strings order.old.items (length order.old.items) }
    requires spare { 0 < region.old.spare }
    requires fits { sum_by length region.old.strings + length section.now.bytes.now ≤ region.old.size }
    requires small { length order.old.items < 2 ^ 32 }
    requires heads_room { length order.old.items < vec_capacity heads.old }
    requires order_room { length order.old.items < vec_capacity order.old }
    ensures sections { sections_at heads.new.items region.new.strings order.new.items ≡ sections_at heads.old.items region.old.strings order.old.items ++ lent_section section.now ∷ [] }
    ensures kept { AreKept heads.new.items region.new.strings order.new.items (length order.new.items) }
    ensures len { length order.new.items ≡ length order.old.items + 1 }
    ensures region { region.new ≡ record region.old { strings = region.old.strings ++ section.now.bytes.now ∷ []; spare = region.old.spare - 1 } }
    ensures heads_capacity { vec_capacity heads.new ≡ vec_capacity heads.old }
    ensures order_capacity { vec_capacity order.new ≡ vec_capacity order.old }
{
    order.push_reserved(heads.len() as u32);
    region.push(section.bytes);
    heads.push_reserved(head_of(section));
}

/// What is kept of a section beside its bytes.
fn head_of(section: &SectionRef<'_>) -> Head
    ensures { result ≡ record { id = section.now.id.now; expiration = section.now.expiration; state = section.now.state; last_update = section.now.last_update } }
{
    Head {
        id: Keyed::of(section.id),
        expiration: section.expiration,
        state: section.state,
        last_update: section.last_update,
    }
}

/// The head of a free slot becomes that of a section.
fn fill(head: &mut Head, section: &SectionRef<'_>)
    ensures { head.new ≡ record { id = section.now.id.now; expiration = section.now.expiration; state = section.now.state; last_update = section.now.last_update } }
{
    head.id.set(section.id);
    head.expiration = section.expiration;
    head.state = section.state;
    head.last_update = section.last_update;
}

/// Writes into the string of a slot, with zeros in a gap, and says how many bytes more it has.
#[inline(always)]
fn write_grown(region: &mut Region, slot: usize, offset: usize, bytes: &[u8]) -> usize
    requires there { slot < length region.old.strings }
    requires fits { sum_by length (with_string (λ s. written s offset bytes.now) slot region.old.strings) ≤ region.old.size }
    requires small { region.old.size < 2 ^ 64 }
    ensures written { region.new ≡ record region.old { strings = with_string (λ s. written s offset bytes.now) slot region.old.strings } }
    ensures grown { sum_by length region.new.strings ≡ sum_by length region.old.strings + result }
{
    let before = region.len_at(slot);
    let end = offset + bytes.len();
    if end <= before {
        region.write(slot, offset, bytes);
        return 0;
    }
    region.resize(slot, end);
    region.write(slot, offset, bytes);
    end - before
}

/// Puts these bytes in the place of those of a slot.
fn replace(region: &mut Region, slot: usize, bytes: &[u8])
    requires there { slot < length region.old.strings }
    requires fits { sum_by length (remove region.old.strings slot) + length bytes.now ≤ region.old.size }
    ensures { region.new ≡ record region.old { strings = with_string (λ s. bytes.now) slot region.old.strings } }
{
    region.resize(slot, bytes.len());
    region.write(slot, 0, bytes);
}

/// Brings the slots of the sections that are present in front of those of the others, which it empties, and says how many
/// they are.
fn keep_present(
    region: &mut Region,
    heads: &[Head],
    order: &mut Vec<u32>,
    count: usize,
    now: Moment,
) -> usize
    requires kept { AreKept heads.now region.old.strings order.old.items count }
    requires fits { sum_by length region.old.strings ≤ region.old.size }
    ensures sections { sections_at heads.now region.new.strings (take result order.new.items) ≡ present now (sections_at heads.now region.old.strings (take count order.old.items)) }
    ensures kept { AreKept heads.now region.new.strings order.new.items result }
    ensures fits { sum_by length region.new.strings ≤ region.new.size }
    ensures strings { length region.new.strings ≡ length region.old.strings }
    ensures region { region.new ≡ record region.old { strings = region.new.strings } }
    ensures capacity { vec_capacity order.new ≡ vec_capacity order.old }
{
    let mut kept = 0;
    for place in 0..count {
        let slot = order[place] as usize;
        if expired(heads[slot].expiration, now) {
            region.resize(slot, 0);
        } else {
            order.swap(kept, place);
            kept += 1;
        }
    }
    kept
}

/// Brings a slot from its place in the order to another, and says which it is.
fn bring(order: &mut Vec<u32>, from: usize, to: usize) -> usize
    requires from { from < length order.old.items }
    requires to { to < length order.old.items }
    ensures slot { result ≡ slice_index_or order.old.items from 0 }
    ensures items { order.new.items ≡ insert (remove order.old.items from) to result }
    ensures capacity { vec_capacity order.old ≤ vec_capacity order.new }
{
    let slot = order.remove(from);
    put_slot(order, to, slot);
    slot as usize
}

/// Puts a slot in the order at a place. It takes no memory.
fn put_slot(order: &mut Vec<u32>, place: usize, slot: u32)
    requires place { place ≤ length order.old.items }
    requires room { length order.old.items < vec_capacity order.old }
    ensures items { order.new.items ≡ insert order.old.items place slot }
    ensures capacity { vec_capacity order.old ≤ vec_capacity order.new }
{
    let Ok(()) = order.insert(place, slot) else {
        unreachable!()
    };
}
