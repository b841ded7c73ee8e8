// The named master, and the referenced record where the call looks at it.
ghost use Rattle.std.specs.Prelude.{◌≡◌, true};
ghost use Rattle.terms.specs.Terms.{key_of};
ghost use Rattle.schema.specs.Place.{InSet};
ghost use Rattle.point_calls.specs.OnPath.{sighted_of};

use super::held::HeldPath;
use terms::{Key, RecordNo, Refusal};

impl<'a> HeldPath<'a> {
    // "find the named master (16, then 12)", then 11 where the call looks at the referenced record.
    pub fn seek(&self, r: u32, key: Key, looks: bool) -> Result<RecordNo, Refusal>
        requires len_value { key.len ≡ self.now.masters.now.key }
        requires in_set { looks ≡ true → InSet self.now.entry.now r }
        ensures { result ≡ sighted_of self.now.base.now self.now.entry.now self.now.path self.now.masters.now r (key_of key) looks }
    {
        let m = self.owners().named(key)?;
        if !looks {
            return Ok(m);
        }
        if !self.points().is_point(key, RecordNo(r)) {
            return Err(Refusal::Ivrp);
        }
        Ok(m)
    }
}
