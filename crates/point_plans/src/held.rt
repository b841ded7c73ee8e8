// The points of a set as a data base holds them: on one path, with the masters of every path, and one point with its own masters. That the records
// lie in the data base, and the paths' fields in the records, are facts of the types.
ghost use Rattle.std.specs.Prelude.{ℕ, ◌≡◌, ◌+◌, ◌≤◌, ◌<◌, length};
ghost use Rattle.schema.specs.Decode.{path_of};
ghost use Rattle.schema.specs.Place.{InSet, LiesIn};
ghost use Rattle.records.specs.InBase.{masters_kept, MastersIn, PointsIn, PathIn};
ghost use Rattle.point_plans.specs.Within.{KeysIn, OwnersIn};

use masters::held::Masters;
use records::held::{Record, Set};
use schema::layout::path_of;
use schema::{Entry, Part, Path};
use terms::RecordNo;

// The points of a set on one path.
#[derive(Clone, Copy)]
pub struct PointsOn<'a> {
    pub base: &'a [u8],
    pub entry: &'a Entry,
    pub path: Path,
    ghost lies_in: { LiesIn entry.now (length base.now) },
    ghost path_in: { PathIn entry.now path },
}

// The paths of a set of points: the points, and the masters of each path.
#[derive(Clone, Copy)]
pub struct Paths<'a> {
    pub base: &'a [u8],
    pub entry: &'a Entry,
    pub masters: &'a [Entry; 4],
    ghost points_in: { PointsIn entry.now (length base.now) },
    ghost masters_in: { (k : ℕ) → k < entry.now.count → MastersIn (masters_kept masters.now k) (path_of entry.now k) (length base.now) },
}

// A point on every path, once the masters of its keys are found: where the keys stand in a buffer, the area in an add and the record's part in
// DELVD, and where the masters lie.
#[derive(Clone, Copy)]
pub struct OwnedPoint<'a> {
    pub base: &'a [u8],
    pub entry: &'a Entry,
    pub src: &'a [u8],
    pub at: [usize; 4],
    pub owners: [Part; 4],
    ghost points_in: { PointsIn entry.now (length base.now) },
    ghost keys_in: { KeysIn entry.now at (length src.now) },
    ghost owners_in: { OwnersIn entry.now owners (length base.now) },
}

impl<'a> PointsOn<'a> {
    // The points of an entry, whose records lie in the data base, on a path whose fields lie in them.
    pub fn of(base: &'a [u8], entry: &'a Entry, path: Path) -> PointsOn<'a>
        requires lies_in { LiesIn entry.now (length base.now) }
        requires path_in { PathIn entry.now path }
        ensures { (result.base.now ≡ base.now) × (result.entry.now ≡ entry.now) × (result.path ≡ path) }
    {
        PointsOn { base, entry, path }
    }

    // The record of a number.
    pub fn record(&self, r: RecordNo) -> Record<'a>
        requires { InSet self.now.entry.now r.0 }
        ensures { (result.base.now ≡ self.now.base.now) × (result.entry.now ≡ self.now.entry.now) × (result.number.0 ≡ r.0) }
    {
        Set::of(self.base, self.entry).record(r)
    }
}

impl<'a> Paths<'a> {
    // The points of an entry, and the masters of each of their paths.
    pub fn of(base: &'a [u8], entry: &'a Entry, masters: &'a [Entry; 4]) -> Paths<'a>
        requires points_in { PointsIn entry.now (length base.now) }
        requires masters_in { (k : ℕ) → k < entry.now.count → MastersIn (masters_kept masters.now k) (path_of entry.now k) (length base.now) }
        ensures { (result.base.now ≡ base.now) × (result.entry.now ≡ entry.now) × (result.masters.now ≡ masters.now) }
    {
        Paths {
            base,
            entry,
            masters,
        }
    }

    // The set of their records.
    pub fn set(&self) -> Set<'a>
        ensures { (result.base.now ≡ self.now.base.now) × (result.entry.now ≡ self.now.entry.now) }
    {
        Set::of(self.base, self.entry)
    }

    // The masters of path k.
    pub fn masters_on(&self, k: usize) -> Masters<'a>
        requires { k < self.now.entry.now.count }
        ensures { (result.base.now ≡ self.now.base.now) × (result.entry.now ≡ masters_kept self.now.masters.now k) }
    {
        Masters::of(self.base, &self.masters[k])
    }
}

impl<'a> OwnedPoint<'a> {
    // Its set.
    pub fn set(&self) -> Set<'a>
        ensures { (result.base.now ≡ self.now.base.now) × (result.entry.now ≡ self.now.entry.now) }
    {
        Set::of(self.base, self.entry)
    }

    // The points on path k.
    pub fn on(&self, k: usize) -> PointsOn<'a>
        requires { k < self.now.entry.now.count }
        ensures { (result.base.now ≡ self.now.base.now) × (result.entry.now ≡ self.now.entry.now) × (result.path ≡ path_of self.now.entry.now k) }
    {
        PointsOn::of(self.base, self.entry, path_of(*self.entry, k))
    }
}
