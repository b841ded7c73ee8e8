// A path as a data base holds it: the points on it, and their masters. That both lie in the data base is a fact of the type.
ghost use Rattle.std.specs.Prelude.{◌≡◌, length};
ghost use Rattle.records.specs.InBase.{Reached};

use super::Located;
use masters::held::Masters;
use point_plans::held::PointsOn;
use schema::{Entry, Path};

#[derive(Clone, Copy)]
pub struct HeldPath<'a> {
    pub base: &'a [u8],
    pub entry: &'a Entry,
    pub path: Path,
    pub masters: &'a Entry,
    ghost reached: { Reached entry.now path masters.now (length base.now) },
}

impl<'a> HeldPath<'a> {
    // The path that a call has located.
    pub fn of(base: &'a [u8], l: &'a Located) -> HeldPath<'a>
        requires { Reached l.now.entry l.now.path l.now.masters (length base.now) }
        ensures { (result.base.now ≡ base.now) × (result.entry.now ≡ l.now.entry) × (result.path ≡ l.now.path) × (result.masters.now ≡ l.now.masters) }
    {
        HeldPath {
            base,
            entry: &l.entry,
            path: l.path,
            masters: &l.masters,
        }
    }

    // Its points.
    pub fn points(&self) -> PointsOn<'a>
        ensures { (result.base.now ≡ self.now.base.now) × (result.entry.now ≡ self.now.entry.now) × (result.path ≡ self.now.path) }
    {
        PointsOn::of(self.base, self.entry, self.path)
    }

    // Their masters.
    pub fn owners(&self) -> Masters<'a>
        ensures { (result.base.now ≡ self.now.base.now) × (result.entry.now ≡ self.now.masters.now) }
    {
        Masters::of(self.base, self.masters)
    }
}
