// A record's neighbours, path by path: those that it has, and those that a new record will have.
ghost use Rattle.std.specs.Prelude.{◌≡◌, ◌+◌, length, take, drop, replicate};
ghost use Rattle.octets.specs.Octets.{word_at};
ghost use Rattle.schema.specs.Place.{InSet, bytes_of};
ghost use Rattle.records.specs.Records.{prior_on, next_on};
ghost use Rattle.records.specs.Areas.{no_link};
ghost use Rattle.points.specs.Points.{spot_on, neighbours_at};
ghost use Rattle.point_plans.specs.Paths.{own_links, new_links};
ghost use Rattle.point_plans.specs.Within.{OwnerIn, OwnersIn, SpotIn};
ghost use Rattle.records.specs.InBase.{PointsIn};

use super::held::PointsOn;
use points::Spot;
use records::Link;
use schema::layout::{bytes_of, path_of};
use schema::{Entry, Part};
use terms::RecordNo;

impl<'a> PointsOn<'a> {
    // The neighbours of a record on the path.
    fn own_link(&self, r: RecordNo) -> Link
        requires { InSet self.now.entry.now r.0 }
        ensures { result ≡ record { prior = prior_on self.now.base.now self.now.entry.now r.0 self.now.path; next = next_on self.now.base.now self.now.entry.now r.0 self.now.path } }
    {
        let record = self.record(r);
        let prior = record.prior_on(self.path);
        let next = record.next_on(self.path);
        Link { prior, next }
    }

    // Where a new record goes on the path, in a chain whose last record is z.
    fn neighbours_at(&self, z: u32, spot: Spot) -> Link
        requires { SpotIn spot self.now.entry.now }
        ensures { result ≡ neighbours_at self.now.base.now self.now.entry.now self.now.path z spot }
    {
        match spot {
            Spot::Last => Link { prior: z, next: 0 },
            Spot::After(r) => {
                let next = self.record(r).next_on(self.path);
                Link { prior: r.0, next }
            }
            Spot::Before(r) => {
                let prior = self.record(r).prior_on(self.path);
                Link { prior, next: r.0 }
            }
        }
    }

    // "ADDVA and ADDVB link after or before the reference on the named path, last on the others." This is path k; its master is the part `owner`.
    fn new_link(&self, owner: Part, spot: Spot, named: usize, k: usize) -> Link
        requires spot_in { SpotIn spot self.now.entry.now }
        requires owner_in { OwnerIn self.now.path owner (length self.now.base.now) }
        ensures { result ≡ neighbours_at self.now.base.now self.now.entry.now self.now.path (word_at (bytes_of self.now.base.now owner) (self.now.path.link + 4)) (spot_on spot named k) }
    {
        let master = bytes_of(self.base, owner);
        let last = octets::word(master, self.path.link as usize + 4);
        if k == named {
            return self.neighbours_at(last, spot);
        }
        self.neighbours_at(last, Spot::Last)
    }
}

// The neighbours of a record on every path. It asks for no master and no key, so it is no method of a point with its masters.
pub fn own_links(base: &[u8], entry: &Entry, r: RecordNo) -> [Link; 4]
    requires points_in { PointsIn entry.now (length base.now) }
    requires in_set { InSet entry.now r.0 }
    ensures result_value { take entry.now.count result ≡ own_links base.now entry.now r.0 }
    ensures result_value_2 { drop entry.now.count result ≡ drop entry.now.count (replicate 4 no_link) }
{
    let mut links = [Link { prior: 0, next: 0 }; 4];
    for k in 0..entry.count as usize {
        links[k] = PointsOn::of(base, entry, path_of(*entry, k)).own_link(r);
    }
    links
}

// The neighbours of a new record on every path. It asks for the masters, and for no key.
pub fn new_links(
    base: &[u8],
    entry: &Entry,
    owners: [Part; 4],
    spot: Spot,
    named: usize,
) -> [Link; 4]
    requires points_in { PointsIn entry.now (length base.now) }
    requires owners_in { OwnersIn entry.now owners (length base.now) }
    requires spot_in { SpotIn spot entry.now }
    ensures result_value { take entry.now.count result ≡ new_links base.now entry.now owners spot named }
    ensures result_value_2 { drop entry.now.count result ≡ drop entry.now.count (replicate 4 no_link) }
{
    let mut links = [Link { prior: 0, next: 0 }; 4];
    for k in 0..entry.count as usize {
        let p = path_of(*entry, k);
        let on = PointsOn::of(base, entry, p);
        links[k] = on.new_link(owners[k], spot, named, k);
    }
    links
}
