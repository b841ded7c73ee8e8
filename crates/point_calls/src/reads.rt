// The reads: READD, READV and READR.
ghost use Rattle.std.specs.Prelude.{◌≡◌, ◌≤◌, false, not, ◌⊎◌, eqb, length, IfSome};
ghost use Rattle.terms.specs.Terms.{key_of};
ghost use Rattle.terms.specs.Status.{status_of};
ghost use Rattle.ends.specs.Ends.{reference_returned, number_of};
ghost use Rattle.terms.specs.declared.Operation.TheVariants.{Readd};
ghost use Rattle.schema.specs.Place.{InSet};
ghost use Rattle.records.specs.Areas.{area_length};
ghost use Rattle.points.specs.Chains.{read_damaged};
ghost use Rattle.schema.specs.Naming.{link_of};
ghost use Rattle.records.specs.InBase.{IsPath};
ghost use Rattle.point_calls.specs.OnPath.{Seen, read_by, pointer_on, AnswersOnPath};

use super::Located;
use super::held::HeldPath;
use ends::give;
use point_plans::damage::uneven_ends;
use schema::Path;
use terms::{Key, RecordNo, Reference, Refusal};

// READD: the referenced record.
pub fn readd(
    l: Located,
    reference: Reference,
    key: &[u8],
    area: &mut [u8],
    base: &[u8],
) -> Result<Reference, Refusal>
    requires path { IsPath l.entry l.path l.masters (length base.now) }
    requires key_len { length key.now ≡ l.masters.key }
    requires area_len { length area.old ≡ area_length l.entry }
    requires in_set { InSet l.entry reference.0 }
    ensures { AnswersOnPath Readd l.entry l.path l.masters reference.0 key.now area.old base.now (status_of result) (reference_returned reference.0 result) area.new base.now }
{
    let path = HeldPath::of(base, &l);
    path.seek(reference.0, Key::of(key), true)?;
    Ok(give(base, l.entry, Some(RecordNo(reference.0)), area))
}

// Is the reference LKxx of the path?
fn is_link(p: Path, reference: Reference) -> bool
    ensures { result ≡ eqb reference.0 (link_of p) }
{
    reference == p.reference()
}

// The record that a pointer leads to: 0 is none.
fn pointed(n: u32) -> Option<RecordNo>
    ensures number { number_of result ≡ n }
    ensures record { IfSome result (λ r. 1 ≤ r.0) }
{
    if n == 0 {
        return None;
    }
    Some(RecordNo(n))
}

impl<'a> HeldPath<'a> {
    // The pointer that a read uses: "READV first or next, READR last or prior", the first of each with LKxx.
    fn pointer_on(&self, m: RecordNo, r: u32, linked: bool, back: bool) -> u32
        requires in_set { InSet self.now.masters.now m.0 }
        requires in_set_2 { linked ≡ false → InSet self.now.entry.now r }
        ensures { result ≡ pointer_on back self.now.base.now self.now.entry.now self.now.path self.now.masters.now m.0 r linked }
    {
        if linked {
            let master = self.owners().at(m).record();
            if back {
                return master.last_on(self.path);
            }
            return master.first_on(self.path);
        }
        let point = self.points().record(RecordNo(r));
        if back {
            return point.prior_on(self.path);
        }
        point.next_on(self.path)
    }

    // The final 16 of a read that uses the pointer n.
    fn read_damaged(&self, m: RecordNo, key: Key, linked: bool, n: u32) -> bool
        requires in_set { InSet self.now.masters.now m.0 }
        requires len_value { key.len ≡ self.now.masters.now.key }
        ensures { result ≡ read_damaged self.now.base.now self.now.entry.now self.now.path self.now.masters.now m.0 (key_of key) linked n }
    {
        let master = self.owners().at(m).record().bytes();
        let uneven = uneven_ends(master, self.path.link as usize);
        let bad = self.points().bad_neighbour(key, n);
        (linked & uneven) | bad
    }

    // The rest of READV or READR, once the named master m and the referenced record are known.
    fn read_from(
        &self,
        m: RecordNo,
        reference: Reference,
        key: Key,
        back: bool,
        area: &mut [u8],
    ) -> Result<Reference, Refusal>
        requires len_value { key.len ≡ self.now.masters.now.key }
        requires area_len { length area.old ≡ area_length self.now.entry.now }
        requires fact { (reference.0 ≡ link_of self.now.path) ⊎ InSet self.now.entry.now reference.0 }
        requires seen { Seen self.now.base.now self.now.entry.now self.now.path self.now.masters.now reference.0 (key_of key) (not (eqb reference.0 (link_of self.now.path))) m }
        ensures { AnswersOnPath (read_by back) self.now.entry.now self.now.path self.now.masters.now reference.0 (key_of key) area.old self.now.base.now (status_of result) (reference_returned reference.0 result) area.new self.now.base.now }
    {
        let linked = is_link(self.path, reference);
        let n = self.pointer_on(m, reference.0, linked, back);
        if self.read_damaged(m, key, linked, n) {
            return Err(Refusal::Damg);
        }
        Ok(give(self.base, *self.entry, pointed(n), area))
    }
}

// READV, and READR where `back`: "READV with LKxx gives the first record, with a number the one after it; READR the last, or the one
// before."
pub fn read_along(
    l: Located,
    reference: Reference,
    key: &[u8],
    back: bool,
    area: &mut [u8],
    base: &[u8],
) -> Result<Reference, Refusal>
    requires path { IsPath l.entry l.path l.masters (length base.now) }
    requires key_len { length key.now ≡ l.masters.key }
    requires area_len { length area.old ≡ area_length l.entry }
    requires fact { (reference.0 ≡ link_of l.path) ⊎ InSet l.entry reference.0 }
    ensures { AnswersOnPath (read_by back) l.entry l.path l.masters reference.0 key.now area.old base.now (status_of result) (reference_returned reference.0 result) area.new base.now }
{
    let k = Key::of(key);
    let linked = is_link(l.path, reference);
    let path = HeldPath::of(base, &l);
    let m = path.seek(reference.0, k, !linked)?;
    path.read_from(m, reference, k, back, area)
}
