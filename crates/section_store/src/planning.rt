//! Updates that are planned first, and made then without a look-up.
ghost use Rattle.std.specs.Prelude.{◌≡◌, ◌+◌, ◌≤◌, ◌<◌, ◌^◌, ◌++◌, ◌∷◌, [], true, false, is_some, slice_get, Some, Ok, IsOk, length};
ghost use Rattle.ckpt_types.specs.Attributes.{is_malformed};
ghost use Rattle.ckpt_types.specs.Limits.{vector_max};
ghost use Rattle.ckpt_types.specs.Sections.{Rises, Fits, place_of, present};
ghost use Rattle.ckpt_types.specs.Updates.{outcome, elements_written, first_place, new_id};
ghost use Rattle.section_store.specs.Places.{count_below, place_among_present};
ghost use Rattle.section_store.specs.Planned.{is_short, planned, planned_elements, next_planned, KeepSizes};

use crate::order::{find, find_near, place_for};
use crate::plan::{Plan, Planned};
use crate::store::Store;
use ckpt_types::{IoElement, Moment, NewId, Sections, Update};
use moment_rules::expired;

impl Store {
    /// Plans an update: where it goes, and how many bytes each section has then. It takes no memory.
    pub fn plan(&self, update: &Update, now: Moment, plan: &mut Plan)
        requires accepted { IsOk (outcome self.now.attributes update.now now self.now.sections) }
        requires short { is_short update.now ≡ true }
        ensures { plan.new ≡ planned self.now.attributes update.now now self.now.sections }
    {
        self.law();
        plan.clear();
        match update {
            Update::Write(elements) => self.plan_several(elements.as_slice(), now, plan),
            Update::Overwrite(id, bytes) => {
                let place = self.place_of(id.as_slice());
                plan.push(self.planned(place, bytes.as_slice().len(), now));
            }
            Update::Create(new, _, bytes) => {
                let place = self.place_made(new, now);
                plan.push(self.planned(place, bytes.as_slice().len(), now));
            }
            Update::Delete(id) => {
                let place = self.place_of(id.as_slice());
                plan.push(self.planned(place, 0, now));
            }
            Update::SetExpiration(id, _) => {
                let place = self.place_of(id.as_slice());
                plan.push(self.planned(place, self.kept.size(place), now));
            }
            Update::Nothing => {}
        }
    }

    /// Makes an update as it was planned, without a look-up. It takes no memory.
    #[inline(always)]
    pub fn apply_plan(&mut self, update: &Update, now: Moment, plan: &Plan)
        requires accepted { IsOk (outcome self.old.attributes update.now now self.old.sections) }
        requires planned { plan.now ≡ planned self.old.attributes update.now now self.old.sections }
        ensures attributes { self.new.attributes ≡ self.old.attributes }
        ensures sections { outcome self.old.attributes update.now now self.old.sections ≡ Ok self.new.sections }
    {
        self.law();
        self.drop_absent(now);
        match update {
            Update::Write(elements) => self.write_planned(elements.as_slice(), now, plan),
            Update::Overwrite(_, bytes) => {
                self.overwrite_at(plan.at(0).place, bytes.as_slice(), now);
            }
            Update::Create(new, expiration, bytes) => {
                self.create_at(plan.at(0).place, new, *expiration, bytes.as_slice(), now);
            }
            Update::Delete(_) => self.delete_at(plan.at(0).place),
            Update::SetExpiration(_, expiration) => {
                self.expire_at(plan.at(0).place, *expiration);
            }
            Update::Nothing => {}
        }
    }

    #[inline(always)]
    fn write_planned(&mut self, elements: &[IoElement], now: Moment, plan: &Plan)
        requires accepted { IsOk (elements_written self.old.attributes now 0 elements.now self.old.sections) }
        requires planned { plan.now ≡ planned_elements self.old.attributes now elements.now self.old.sections }
        ensures attributes { self.new.attributes ≡ self.old.attributes }
        ensures sections { elements_written self.old.attributes now 0 elements.now self.old.sections ≡ Ok self.new.sections }
    {
        self.law();
        if let [element] = elements {
            self.write_at(plan.at(0).place, element, now);
        } else {
            self.write_several(elements, now, plan);
        }
    }

    #[inline(never)]
    fn write_several(&mut self, elements: &[IoElement], now: Moment, plan: &Plan)
        requires accepted { IsOk (elements_written self.old.attributes now 0 elements.now self.old.sections) }
        requires planned { plan.now ≡ planned_elements self.old.attributes now elements.now self.old.sections }
        ensures attributes { self.new.attributes ≡ self.old.attributes }
        ensures sections { elements_written self.old.attributes now 0 elements.now self.old.sections ≡ Ok self.new.sections }
    {
        self.law();
        for (index, element) in elements.iter().enumerate() {
            self.write_at(plan.at(index).place, element, now);
        }
    }

    /// Plans a write, of which it is known where the section of its first element stands. It takes no memory.
    #[inline(always)]
    pub fn plan_write(&self, elements: &[IoElement], first: usize, now: Moment, plan: &mut Plan)
        requires accepted { IsOk (elements_written self.now.attributes now 0 elements.now (present now self.now.sections)) }
        requires short { length elements.now ≤ vector_max }
        requires first { first ≡ first_place elements.now self.now.sections }
        ensures { plan.new ≡ planned_elements self.now.attributes now elements.now (present now self.now.sections) }
    {
        self.law();
        plan.clear();
        if let [element] = elements {
            self.plan_element(element, first, false, now, plan);
        } else {
            self.plan_several(elements, now, plan);
        }
    }

    #[inline(never)]
    fn plan_several(&self, elements: &[IoElement], now: Moment, plan: &mut Plan)
        requires accepted { IsOk (elements_written self.now.attributes now 0 elements.now (present now self.now.sections)) }
        requires short { length elements.now ≤ vector_max }
        requires empty { plan.old ≡ [] }
        ensures { plan.new ≡ planned_elements self.now.attributes now elements.now (present now self.now.sections) }
    {
        self.law();
        let mut near = 0;
        let mut grown = false;
        for element in elements {
            let place = self.place_near(element.id.as_slice(), near);
            grown = self.plan_element(element, place, grown, now, plan);
            near = place + 1;
        }
    }

    /// Plans one element more, whose section stands at that place, and says whether a section has grown by now: then the
    /// size of one may be that of an earlier element.
    #[inline(always)]
    fn plan_element(
        &self,
        element: &IoElement,
        place: usize,
        grown: bool,
        now: Moment,
        plan: &mut Plan,
    ) -> bool
        requires there { place < length self.now.sections }
        requires here { slice_get (present now self.now.sections) (place_among_present now place self.now.sections) ≡ slice_get self.now.sections place }
        requires end { element.now.offset + length element.now.bytes < 2 ^ 64 }
        requires room { length plan.old < vector_max }
        requires before { grown ≡ false → KeepSizes (present now self.now.sections) plan.old }
        ensures plan { plan.new ≡ plan.old ++ next_planned now element.now place self.now.sections plan.old ∷ [] }
        ensures behind { result ≡ false → KeepSizes (present now self.now.sections) plan.new }
    {
        let end = element.offset as usize + element.bytes.as_slice().len();
        let entry = self.planned(place, self.kept.size(place), now);
        let before = plan.size_before(entry.place, entry.size, grown);
        let size = before.max(end);
        plan.push(Planned {
            place: entry.place,
            size,
        });
        grown || before < end
    }

    /// Nothing is done: the sections rise and keep to what was declared.
    #[inline(always)]
    fn law(&self)
        ensures rises { Rises self.now.sections }
        ensures fits { Fits self.now.attributes self.now.sections }
        ensures checked { is_malformed self.now.attributes ≡ false }
    {
        let _ = &self.kept;
    }

    /// Where the section stands of an identifier that is there.
    fn place_of(&self, id: &[u8]) -> usize
        requires { is_some (place_of id.now self.now.sections) ≡ true }
        ensures { place_of id.now self.now.sections ≡ Some result }
    {
        let Some(place) = find(&self.kept, id) else {
            unreachable!()
        };
        place
    }

    /// The same, looked for at `near` first.
    fn place_near(&self, id: &[u8], near: usize) -> usize
        requires { is_some (place_of id.now self.now.sections) ≡ true }
        ensures { place_of id.now self.now.sections ≡ Some result }
    {
        let Some(place) = find_near(&self.kept, id, near) else {
            unreachable!()
        };
        place
    }

    /// Where a new section comes to stand.
    fn place_made(&self, new: &NewId, now: Moment) -> usize
        ensures place { result ≡ count_below (new_id new.now (present now self.now.sections)) self.now.sections }
        ensures within { result ≤ length self.now.sections }
    {
        match new {
            NewId::Given(id) => place_for(&self.kept, id.as_slice()),
            NewId::Generated => place_for(&self.kept, self.generated(now).as_slice()),
        }
    }

    /// The entry of a section at a place, which has so many bytes then.
    #[inline(always)]
    fn planned(&self, place: usize, size: usize, now: Moment) -> Planned
        requires { place ≤ length self.now.sections }
        ensures { result ≡ record { place = place_among_present now place self.now.sections; size = size } }
    {
        let place = self.place_among_present(place, now);
        Planned { place, size }
    }

    /// The place among the sections that are present.
    #[inline(always)]
    fn place_among_present(&self, place: usize, now: Moment) -> usize
        requires { place ≤ length self.now.sections }
        ensures { result ≡ place_among_present now place self.now.sections }
    {
        if expired(self.earliest(), now) {
            self.count_present(place, now)
        } else {
            place
        }
    }

    /// How many of the first sections are present.
    #[inline(never)]
    fn count_present(&self, place: usize, now: Moment) -> usize
        requires { place ≤ length self.now.sections }
        ensures { result ≡ place_among_present now place self.now.sections }
    {
        let mut count = 0;
        for before in 0..place {
            if self.kept.is_present(before, now) {
                count += 1;
            }
        }
        count
    }
}
