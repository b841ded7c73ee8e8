// The calls that store: WRITV, the adds and DELVD.
ghost use Rattle.std.specs.Prelude.{◌≡◌, length};
ghost use Rattle.terms.specs.declared.Operation.TheVariants.{Writv, Delvd};
ghost use Rattle.terms.specs.Status.{status_of};
ghost use Rattle.schema.specs.Place.{InSet};
ghost use Rattle.records.specs.Areas.{area_length, area_key_on};
ghost use Rattle.calls.specs.Reply.{or_link};
ghost use Rattle.ends.specs.Ends.{reference_returned};
ghost use Rattle.records.specs.InBase.{IsPath, IsPathAmong};
ghost use Rattle.point_calls.specs.OnPath.{add_at, is_beside, Spotted, AnswersOnPath, AnswersAmong};

use super::Located;
use super::held::HeldPath;
use ends::settle;
use plans::body_plan;
use point_plans::NamedPath;
use point_plans::held::Paths;
pub use points::Spot;
use schema::{Entry, Path};
use terms::{Key, RecordNo, Reference, Refusal};

// WRITV: "WRITM and WRITV replace the D bytes."
pub fn writv(
    l: Located,
    reference: Reference,
    key: &[u8],
    area: &[u8],
    base: &mut [u8],
) -> Result<Reference, Refusal>
    requires path { IsPath l.entry l.path l.masters (length base.old) }
    requires key_len { length key.now ≡ l.masters.key }
    requires area_len { length area.now ≡ area_length l.entry }
    requires in_set { InSet l.entry reference.0 }
    ensures { AnswersOnPath Writv l.entry l.path l.masters reference.0 key.now area.now base.old (status_of result) (reference_returned reference.0 result) area.now base.new }
{
    let path = HeldPath::of(base, &l);
    path.seek(reference.0, Key::of(key), true)?;
    let r = RecordNo(reference.0);
    let stored = path.points().record(r);
    if forms::other_stored_key(&stored, area) {
        return Err(Refusal::Keys);
    }
    settle(base, l.entry, area, body_plan(r), reference)
}

// ---- the adds

// Is the spot beside a record? Then the add looks at it.
fn is_beside(spot: Spot) -> bool
    ensures { result ≡ is_beside spot }
{
    !matches!(spot, Spot::Last)
}

// An add, at its spot on the named path. `all` are the masters of every path. "ADDVC links last on all paths. ADDVA and ADDVB link after or
// before the reference on the named path, last on the others."
pub fn add_at(
    l: Located,
    all: [Entry; 4],
    reference: Reference,
    spot: Spot,
    key: &[u8],
    area: &[u8],
    base: &mut [u8],
) -> Result<Reference, Refusal>
    requires path_among { IsPathAmong l.entry l.on l.path l.masters all (length base.old) }
    requires key_len { length key.now ≡ l.masters.key }
    requires area_len { length area.now ≡ area_length l.entry }
    requires on_value { area_key_on l.entry area.now l.on ≡ key.now }
    requires spotted { Spotted spot l.entry l.path reference.0 }
    ensures { AnswersAmong (add_at spot) l.entry l.on l.path l.masters all reference.0 key.now area.now base.old (status_of result) (reference_returned reference.0 result) area.now base.new }
{
    let path = HeldPath::of(base, &l);
    let master = path.seek(reference.0, Key::of(key), is_beside(spot))?;
    let named = NamedPath { on: l.on, master };
    let paths = Paths::of(base, &l.entry, &all);
    let plan = paths.add(area, spot, named)?;
    settle(base, l.entry, area, plan, plan.target.into())
}

// ---- DELVD

// "returns the prior record on the named path, or LKxx if there was none (table 5-3)"
fn or_link(p: Path, r: u32) -> Reference
    ensures { result.0 ≡ or_link p r }
{
    if r == 0 {
        return p.reference();
    }
    RecordNo(r).into()
}

// DELVD: the record leaves every path, and is wiped.
pub fn delvd(
    l: Located,
    all: [Entry; 4],
    reference: Reference,
    key: &[u8],
    area: &[u8],
    base: &mut [u8],
) -> Result<Reference, Refusal>
    requires path_among { IsPathAmong l.entry l.on l.path l.masters all (length base.old) }
    requires key_len { length key.now ≡ l.masters.key }
    requires in_set { InSet l.entry reference.0 }
    ensures { AnswersAmong Delvd l.entry l.on l.path l.masters all reference.0 key.now area.now base.old (status_of result) (reference_returned reference.0 result) area.now base.new }
{
    let path = HeldPath::of(base, &l);
    let master = path.seek(reference.0, Key::of(key), true)?;
    let r = RecordNo(reference.0);
    let point = path.points().record(r);
    let after = or_link(l.path, point.prior_on(l.path));
    let named = NamedPath { on: l.on, master };
    let paths = Paths::of(base, &l.entry, &all);
    let plan = paths.delete(r, named)?;
    settle(base, l.entry, area, plan, after)
}
