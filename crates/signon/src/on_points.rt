// The chains of a path: each is ridden from its master's first to its last, and together they must have as many points as the set has live
// records.
ghost use Rattle.std.specs.Prelude.{◌≡◌, ◌≤◌, length};
ghost use Rattle.terms.specs.Terms.{key_of};
ghost use Rattle.schema.specs.Place.{InSet};
ghost use Rattle.sound.specs.Linear.{path_ride, live_count, path_in_place};
ghost use Rattle.records.specs.InBase.{PathIn, Reached};
ghost use Rattle.signon.specs.Judged.{ridden_of, in_order, ride_from, chain_points, path_points};

use masters::held::Masters;
use records::held::{Record, Set};
use schema::{Entry, Path};
use terms::{Key, RecordNo};

// A ride along a chain that is in order: how many records it met, and the last of them.
#[derive(Clone, Copy)]
pub struct Ridden {
    pub count: u32,
    pub last: u32,
}

// A path of a set of points, and the set whose masters its chains begin at.
#[derive(Clone, Copy)]
pub struct Chains<'a> {
    pub base: &'a [u8],
    pub entry: &'a Entry,
    pub path: Path,
    pub masters: &'a Entry,
    ghost reached: { Reached entry.now path masters.now (length base.now) },
}

// Is the pointer a record of the set, live and of the key, that points back to the record before it?
#[tactic(auto, using(crate::specs::PointLaws::order_above, crate::specs::PointLaws::order_free, crate::specs::PointLaws::order_other, crate::specs::PointLaws::order_last))]
fn in_order(set: &Set, p: Path, k: Key, prior: u32, at: u32) -> bool
    requires path_in { PathIn set.now.entry.now p }
    requires len_value { k.len ≡ p.len }
    requires le_at { 1 ≤ at }
    ensures { result ≡ in_order set.now.base.now set.now.entry.now p (key_of k) prior at }
{
    if set.entry.records < at {
        return false;
    }
    let record = set.record(RecordNo(at));
    record.is_live() && record.key_is(usize::from(p.at), k) && record.prior_on(p) == prior
}

// Along the chain of a key, from its first record on to 0: None where a record is out of order, or where there are more than the set has, as in
// a circle.
fn ride(set: &Set, p: Path, k: Key, first: u32) -> Option<Ridden>
    requires path_in { PathIn set.now.entry.now p }
    requires len_value { k.len ≡ p.len }
    ensures { result ≡ ridden_of (ride_from set.now.entry.now.records set.now.base.now set.now.entry.now p (key_of k) 0 0 first) }
{
    let mut count: u32 = 0;
    let mut last: u32 = 0;
    let mut at = first;
    while at != 0 {
        if count == set.entry.records {
            return None; // a circle
        }
        if !in_order(set, p, k, last, at) {
            return None;
        }
        last = at;
        at = set.record(RecordNo(at)).next_on(p);
        count += 1;
    }
    Some(Ridden { count, last })
}

// How many live records a set has.
fn live_count(set: &Set) -> u32
    ensures { result ≡ live_count set.now.base.now set.now.entry.now }
{
    let mut count: u32 = 0;
    for k in 0..set.entry.records {
        if set.record(RecordNo(k + 1)).is_live() {
            count += 1;
        }
    }
    count
}

impl<'a> Chains<'a> {
    // The chains of a path, whose points and masters lie in the data base.
    pub fn of(base: &'a [u8], entry: &'a Entry, path: Path, masters: &'a Entry) -> Chains<'a>
        requires { Reached entry.now path masters.now (length base.now) }
        ensures points { (result.base.now ≡ base.now) × (result.entry.now ≡ entry.now) × (result.path ≡ path) }
        ensures masters { result.masters.now ≡ masters.now }
    {
        Chains {
            base,
            entry,
            path,
            masters,
        }
    }

    // The set of the points.
    fn points(&self) -> Set<'a>
        ensures { (result.base.now ≡ self.now.base.now) × (result.entry.now ≡ self.now.entry.now) }
    {
        Set::of(self.base, self.entry)
    }

    // The record of a number among the masters.
    fn master(&self, m: RecordNo) -> Record<'a>
        requires { InSet self.now.masters.now m.0 }
        ensures { (result.base.now ≡ self.now.base.now) × (result.entry.now ≡ self.now.masters.now) × (result.number.0 ≡ m.0) }
    {
        Masters::of(self.base, self.masters).at(m).record()
    }

    // The chain of the master in record m.
    fn path_ride(&self, m: RecordNo) -> Option<Ridden>
        requires { InSet self.now.masters.now m.0 }
        ensures { result ≡ ridden_of (path_ride self.now.base.now self.now.entry.now self.now.path self.now.masters.now m.0) }
    {
        let master = self.master(m);
        let k = master.key(12, usize::from(self.masters.key));
        ride(&self.points(), self.path, k, master.first_on(self.path))
    }

    // How many points a record's chain has: 0 of a record that is no master; None of a master whose chain is out of order, or ends not at its
    // last.
    #[tactic(auto, using(crate::specs::PointLaws::chain_broken, crate::specs::PointLaws::chain_whole, crate::specs::PointLaws::chain_short))]
    fn chain_of(&self, m: RecordNo) -> Option<u32>
        requires { InSet self.now.masters.now m.0 }
        ensures { result ≡ chain_points self.now.base.now self.now.entry.now self.now.path self.now.masters.now m.0 }
    {
        let master = self.master(m);
        if !master.is_live() {
            return Some(0);
        }
        let r = self.path_ride(m)?;
        if r.last == master.last_on(self.path) {
            Some(r.count)
        } else {
            None
        }
    }

    // How many points the chains have; None where one of them is out of order.
    fn points_met(&self) -> Option<u32>
        ensures { result ≡ path_points self.now.base.now self.now.entry.now self.now.path self.now.masters.now }
    {
        let mut met: u32 = 0;
        for k in 0..self.masters.records {
            met += self.chain_of(RecordNo(k + 1))?;
        }
        Some(met)
    }

    // Every chain is in order, and together they have as many points as the set has live records: so none of these is on no chain.
    #[tactic(auto, using(crate::specs::PointLaws::path_none, crate::specs::PointLaws::path_sum))]
    pub fn in_place(&self) -> bool
        ensures { result ≡ path_in_place self.now.base.now self.now.entry.now self.now.path self.now.masters.now }
    {
        match self.points_met() {
            Some(met) => met == live_count(&self.points()),
            None => false,
        }
    }
}
