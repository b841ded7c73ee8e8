// A set as a data base holds it, and a record of one. That the set's records lie in the data base, that each has a state, and that the record
// is one of its set, are facts of the types: who has a set or a record proves nothing of them.
ghost use Rattle.std.specs.Prelude.{◌≡◌, ◌+◌, ◌≤◌, length};
ghost use Rattle.octets.specs.Octets.{run, word_at, same_bytes};
ghost use Rattle.terms.specs.Terms.{key_of, key_from};
ghost use Rattle.schema.specs.Place.{InSet, LiesIn, place_of, record_of};
ghost use Rattle.records.specs.Records.{state_of, is_live, root_next, root_prior, first_on, last_on, prior_on, next_on};

use super::fields;
use schema::{Entry, Path, layout};
use terms::{Key, RecordNo};

#[derive(Clone, Copy)]
pub struct Set<'a> {
    pub base: &'a [u8],
    pub entry: &'a Entry,
    ghost lies_in: { LiesIn entry.now (length base.now) },
    ghost front: { 1 ≤ entry.now.size },
}

#[derive(Clone, Copy)]
pub struct Record<'a> {
    pub base: &'a [u8],
    pub entry: &'a Entry,
    pub number: RecordNo,
    ghost lies_in: { LiesIn entry.now (length base.now) },
    ghost front: { 1 ≤ entry.now.size },
    ghost in_set: { InSet entry.now number.0 },
}

impl<'a> Set<'a> {
    // The set of an entry, whose records lie in the data base.
    pub fn of(base: &'a [u8], entry: &'a Entry) -> Set<'a>
        requires lies_in { LiesIn entry.now (length base.now) }
        requires front { 1 ≤ entry.now.size }
        ensures { (result.base.now ≡ base.now) × (result.entry.now ≡ entry.now) }
    {
        Set { base, entry }
    }

    // The record of a number.
    pub fn record(&self, r: RecordNo) -> Record<'a>
        requires { InSet self.now.entry.now r.0 }
        ensures { (result.base.now ≡ self.now.base.now) × (result.entry.now ≡ self.now.entry.now) × (result.number.0 ≡ r.0) }
    {
        Record {
            base: self.base,
            entry: self.entry,
            number: r,
        }
    }
}

impl<'a> Record<'a> {
    // Its bytes: a part of the data base that starts in the middle of its block.
    pub fn bytes(&self) -> &'a [u8]
        ensures value { result.now ≡ record_of self.now.base.now self.now.entry.now self.now.number.0 }
        ensures len { length result.now ≡ self.now.entry.now.size }
    {
        layout::record_of(self.base, *self.entry, self.number)
    }

    // The state byte.
    pub fn state(&self) -> u8
        ensures { result ≡ state_of self.now.base.now self.now.entry.now self.now.number.0 }
    {
        let bytes = self.bytes();
        bytes[0]
    }

    // "Only state 1 counts as live; anything else is free."
    pub fn is_live(&self) -> bool
        ensures { result ≡ is_live self.now.base.now self.now.entry.now self.now.number.0 }
    {
        self.state() == 1
    }

    // The word at a place of the record.
    pub fn word(&self, o: usize) -> u32
        requires { o + 4 ≤ self.now.entry.now.size }
        ensures { result ≡ word_at self.now.base.now (place_of self.now.entry.now self.now.number.0 + o) }
    {
        octets::word(self.bytes(), o)
    }

    // "ROOT next, ROOT prior (4 each)"
    pub fn root_next(&self) -> u32
        requires { 12 ≤ self.now.entry.now.size }
        ensures { result ≡ root_next self.now.base.now self.now.entry.now self.now.number.0 }
    {
        self.word(4)
    }

    pub fn root_prior(&self) -> u32
        requires { 12 ≤ self.now.entry.now.size }
        ensures { result ≡ root_prior self.now.base.now self.now.entry.now self.now.number.0 }
    {
        self.word(8)
    }

    // First and last of the path p, in a record of its master.
    pub fn first_on(&self, p: Path) -> u32
        requires { p.link + 8 ≤ self.now.entry.now.size }
        ensures { result ≡ first_on self.now.base.now self.now.entry.now self.now.number.0 p }
    {
        self.word(p.link as usize)
    }

    pub fn last_on(&self, p: Path) -> u32
        requires { p.link + 8 ≤ self.now.entry.now.size }
        ensures { result ≡ last_on self.now.base.now self.now.entry.now self.now.number.0 p }
    {
        self.word(p.link as usize + 4)
    }

    // Prior and next on the path p, in a variable record.
    pub fn prior_on(&self, p: Path) -> u32
        requires { p.at + p.len + 8 ≤ self.now.entry.now.size }
        ensures { result ≡ prior_on self.now.base.now self.now.entry.now self.now.number.0 p }
    {
        self.word(p.at as usize + p.len as usize)
    }

    pub fn next_on(&self, p: Path) -> u32
        requires { p.at + p.len + 8 ≤ self.now.entry.now.size }
        ensures { result ≡ next_on self.now.base.now self.now.entry.now self.now.number.0 p }
    {
        self.word(p.at as usize + p.len as usize + 4)
    }

    // Is the key the one at a place of the record?
    pub fn key_is(&self, o: usize, k: Key) -> bool
        requires { (k.len ≤ 16) × (o + k.len ≤ self.now.entry.now.size) }
        ensures { result ≡ same_bytes (key_of k) (run self.now.base.now (place_of self.now.entry.now self.now.number.0 + o) k.len) }
    {
        fields::key_is(self.base, self.entry, self.number, o, k)
    }

    // The key at a place of the record.
    pub fn key(&self, o: usize, len: usize) -> Key
        requires { (len ≤ 16) × (o + len ≤ self.now.entry.now.size) }
        ensures { (key_of result ≡ run self.now.base.now (place_of self.now.entry.now self.now.number.0 + o) len) × (result.len ≡ len) × (result ≡ key_from (run self.now.base.now (place_of self.now.entry.now self.now.number.0 + o) len)) }
    {
        fields::key_in(self.base, self.entry, self.number, o, len)
    }
}
