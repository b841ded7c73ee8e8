// The masters of a set as a data base holds them, and one of them. That their records lie in the data base, that they are masters, and that
// the one is a record of the set, are facts of the types.
ghost use Rattle.std.specs.Prelude.{◌≡◌, ◌≤◌, length};
ghost use Rattle.schema.specs.Place.{InSet, LiesIn};
ghost use Rattle.schema.specs.Guarantee.{MasterOk};
ghost use Rattle.masters.specs.Find.{own_home, held_by_own};

use records::held::Record;
use schema::Entry;
use terms::RecordNo;

#[derive(Clone, Copy)]
pub struct Masters<'a> {
    pub base: &'a [u8],
    pub entry: &'a Entry,
    ghost lies_in: { LiesIn entry.now (length base.now) },
    ghost master_ok: { MasterOk entry.now },
}

#[derive(Clone, Copy)]
pub struct Master<'a> {
    pub base: &'a [u8],
    pub entry: &'a Entry,
    pub number: RecordNo,
    ghost lies_in: { LiesIn entry.now (length base.now) },
    ghost master_ok: { MasterOk entry.now },
    ghost in_set: { InSet entry.now number.0 },
}

impl<'a> Masters<'a> {
    // The masters of an entry, whose records lie in the data base.
    pub fn of(base: &'a [u8], entry: &'a Entry) -> Masters<'a>
        requires lies_in { LiesIn entry.now (length base.now) }
        requires master_ok { MasterOk entry.now }
        ensures { (result.base.now ≡ base.now) × (result.entry.now ≡ entry.now) }
    {
        Masters { base, entry }
    }

    // The one in the record of a number.
    pub fn at(&self, r: RecordNo) -> Master<'a>
        requires { InSet self.now.entry.now r.0 }
        ensures { (result.base.now ≡ self.now.base.now) × (result.entry.now ≡ self.now.entry.now) × (result.number.0 ≡ r.0) }
    {
        Master {
            base: self.base,
            entry: self.entry,
            number: r,
        }
    }
}

impl<'a> Master<'a> {
    // Its record.
    pub fn record(&self) -> Record<'a>
        ensures { (result.base.now ≡ self.now.base.now) × (result.entry.now ≡ self.now.entry.now) × (result.number.0 ≡ self.now.number.0) }
    {
        Record {
            base: self.base,
            entry: self.entry,
            number: self.number,
        }
    }

    // The home of the key that it holds.
    pub fn own_home(&self) -> RecordNo
        ensures { result.0 ≡ own_home self.now.base.now self.now.entry.now self.now.number.0 }
    {
        let record = self.record();
        record
            .key(12, usize::from(self.entry.key))
            .home(self.entry.records)
    }

    // Is the record live, and at its own home?
    pub fn is_at_home(&self) -> bool
        ensures { result ≡ held_by_own self.now.base.now self.now.entry.now self.now.number.0 }
    {
        self.record().is_live() && self.own_home() == self.number
    }
}
