// The final 16 of the calls on points, path by path: uneven ends, and neighbours that are none of the chain's.
ghost use Rattle.std.specs.Prelude.{◌≡◌, ◌+◌, ◌≤◌, ◌<◌, length};
ghost use Rattle.terms.specs.Terms.{key_of};
ghost use Rattle.schema.specs.Decode.{path_of};
ghost use Rattle.schema.specs.Place.{InSet};
ghost use Rattle.points.specs.Chains.{is_point_of, bad_neighbour};
ghost use Rattle.point_plans.specs.Paths.{uneven_at, key_at, master_at, damaged_at, damaged};

use super::held::{OwnedPoint, PointsOn};
use records::Link;
use schema::layout::bytes_of;
use terms::{Key, RecordNo};

// "first and last are one 0 and one not": they stand at `link` of the master's part.
pub fn uneven_ends(master: &[u8], link: usize) -> bool
    requires { link + 8 ≤ length master.now }
    ensures { result ≡ uneven_at master.now link }
{
    let none_first = octets::word(master, link) == 0;
    let none_last = octets::word(master, link + 4) == 0;
    none_first ^ none_last
}

impl<'a> PointsOn<'a> {
    // Is the record r live, and of that key on the path?
    pub fn is_point(&self, key: Key, r: RecordNo) -> bool
        requires len_value { key.len ≡ self.now.path.len }
        requires in_set { InSet self.now.entry.now r.0 }
        ensures { result ≡ is_point_of self.now.base.now self.now.entry.now self.now.path (key_of key) r.0 }
    {
        let record = self.record(r);
        let live = record.is_live();
        let same = record.key_is(self.path.at as usize, key);
        live & same
    }

    // "a neighbour pointer the call uses is not 0 and is above R, not live, or (variable) of another key on that path"
    pub fn bad_neighbour(&self, key: Key, n: u32) -> bool
        requires { key.len ≡ self.now.path.len }
        ensures { result ≡ bad_neighbour self.now.base.now self.now.entry.now self.now.path (key_of key) n }
    {
        if n == 0 {
            return false;
        }
        if self.entry.records < n {
            return true;
        }
        !self.is_point(key, RecordNo(n))
    }

    // Is damage met, for a record with this key, this master and these neighbours?
    fn damaged_at(&self, key: Key, master: &[u8], link: Link) -> bool
        requires len_value { key.len ≡ self.now.path.len }
        requires link_in_bounds { self.now.path.link + 8 ≤ length master.now }
        ensures { result ≡ damaged_at self.now.base.now self.now.entry.now self.now.path (key_of key) master.now link }
    {
        let uneven = uneven_ends(master, self.path.link as usize);
        let prior = self.bad_neighbour(key, link.prior);
        let next = self.bad_neighbour(key, link.next);
        uneven | prior | next
    }
}

impl<'a> OwnedPoint<'a> {
    // The same on path k.
    fn damaged_on(&self, link: Link, k: usize) -> bool
        requires { k < self.now.entry.now.count }
        ensures { result ≡ damaged_at self.now.base.now self.now.entry.now (path_of self.now.entry.now k) (key_at self.now.src.now self.now.entry.now self.now.at k) (master_at self.now.base.now self.now.owners k) link }
    {
        let on = self.on(k);
        let key = Key::part(self.src, self.at[k], on.path.len as usize);
        on.damaged_at(key, bytes_of(self.base, self.owners[k]), link)
    }

    // The same on any path.
    pub fn any_damaged(&self, links: [Link; 4]) -> bool
        ensures { result ≡ damaged self.now.base.now self.now.entry.now self.now.src.now self.now.at self.now.owners links }
    {
        (0..self.entry.count as usize).any(|k| self.damaged_on(links[k], k))
    }
}
