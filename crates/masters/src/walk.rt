// The search for a key: "look at its home. If that record is free, or its own home differs, the key is absent. Else follow ROOT next
// until the key or 0. A pointer above R, a free record on the way, or more than R records visited is damage."
ghost use Rattle.std.specs.Prelude.{◌≡◌, ◌<◌, ◌≤◌, length};
ghost use Rattle.terms.specs.Terms.{key_of};
ghost use Rattle.schema.specs.Place.{InSet, LiesIn};
ghost use Rattle.schema.specs.Guarantee.{MasterOk};
ghost use Rattle.masters.specs.Find.{own_home, held_by_own, seek, find, named_master};
ghost use Rattle.masters.specs.Walks.{step_of, last_from, last_sought};

use super::Found;
use super::held::Masters;
use schema::Entry;
use terms::{Key, RecordNo, Refusal};

// Where the walk stands: the pointer that it came by, a plain word until it is tested against R, and the records visited before it.
#[derive(Clone, Copy)]
pub struct Walk {
    pub at: u32,
    pub visited: u32,
}

// What a step of the walk meets.
#[derive(Clone, Copy)]
pub enum Step {
    Found(RecordNo),
    Absent,
    Damaged,
    Next(Walk),
}

// What the search found, and the record where it ends: behind that one a synonym is linked, so the chain is walked once.
#[derive(Clone, Copy)]
pub struct Sought {
    pub found: Found,
    pub last: RecordNo,
}

impl Walk {
    // One step: the record is read once the pointer is a record of the set and fewer than R are visited.
    pub fn step(self, masters: &Masters, k: Key) -> Step
        requires len_value { k.len ≡ masters.now.entry.now.key }
        ensures { result ≡ step_of masters.now.base.now masters.now.entry.now (key_of k) self }
    {
        let records = masters.entry.records;
        if records <= self.visited {
            return Step::Damaged;
        }
        let at = self.at;
        if at == 0 || records < at {
            return Step::Damaged;
        }
        let r = RecordNo(at);
        let record = masters.at(r).record();
        if !record.is_live() {
            return Step::Damaged;
        }
        if record.key_is(12, k) {
            return Step::Found(r);
        }
        let next = record.root_next();
        if next == 0 {
            return Step::Absent;
        }
        Step::Next(Walk {
            at: next,
            visited: self.visited + 1,
        })
    }
}

impl<'a> Masters<'a> {
    // The walk from a home that is held by one of its own. Of a key that is missing `last` is the end of the chain.
    fn seek_from(&self, k: Key, h: RecordNo) -> Sought
        requires in_set { InSet self.now.entry.now h.0 }
        requires len_value { k.len ≡ self.now.entry.now.key }
        ensures found_value { result.found ≡ seek self.now.entry.now.records self.now.base.now self.now.entry.now (key_of k) h.0 }
        ensures last_value { result.last.0 ≡ last_from result.found self.now.base.now self.now.entry.now h.0 }
    {
        let mut w = Walk {
            at: h.0,
            visited: 0,
        };
        // kept: the cursor says how it goes on, and how often it may.
        loop {
            match w.step(self, k) {
                Step::Found(r) => {
                    return Sought {
                        found: Found::At(r),
                        last: h,
                    };
                }
                Step::Absent => {
                    return Sought {
                        found: Found::Missing,
                        last: RecordNo(w.at),
                    };
                }
                Step::Damaged => {
                    return Sought {
                        found: Found::Damaged,
                        last: h,
                    };
                }
                Step::Next(n) => w = n,
            }
        }
    }

    // The search for a key.
    pub fn find(&self, k: Key) -> Sought
        requires le_records { 1 ≤ self.now.entry.now.records }
        requires len_value { k.len ≡ self.now.entry.now.key }
        ensures found_value { result.found ≡ find self.now.base.now self.now.entry.now (key_of k) }
        ensures last_value { result.last.0 ≡ last_sought self.now.base.now self.now.entry.now (key_of k) }
    {
        let h = k.home(self.entry.records);
        if !self.at(h).is_at_home() {
            return Sought {
                found: Found::Missing,
                last: h,
            };
        }
        self.seek_from(k, h)
    }

    // "find the named master (16, then 12)"
    pub fn named(&self, k: Key) -> Result<RecordNo, Refusal>
        requires le_records { 1 ≤ self.now.entry.now.records }
        requires len_value { k.len ≡ self.now.entry.now.key }
        ensures { result ≡ named_master (find self.now.base.now self.now.entry.now (key_of k)) }
    {
        match self.find(k).found {
            Found::At(r) => Ok(r),
            Found::Damaged => Err(Refusal::Damg),
            Found::Missing => Err(Refusal::Mrnf),
        }
    }
}
