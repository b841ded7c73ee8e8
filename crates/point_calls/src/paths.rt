// The set and the path that a call names, and the forms of its other parameters there.
ghost use Rattle.std.specs.Prelude.{◌≡◌, ◌*◌, ◌≤◌, ◌<◌, length};
ghost use Rattle.schema.specs.Naming.{set_named};
ghost use Rattle.records.specs.InBase.{Laid, MastersOf, VariableIn};
ghost use Rattle.point_calls.specs.OnPath.{located_at, formed_on};
ghost use Rattle.terms.specs.Status.{status_of};
ghost use Rattle.records.specs.Fields.{Fields};

use super::Located;
use schema::layout::{entry_of, path_of};
use schema::{Entry, Schema};
use terms::{Operation, Reference, Refusal};

// 4 to 6, of a call on points.
pub fn find_path(t: Schema, set: &[u8], path: &[u8]) -> Result<Located, Refusal>
    requires laid { Laid t (512 * t.blocks) }
    requires set_len { length set.now ≡ 4 }
    ensures { result ≡ located_at t (set_named t set.now) path.now }
{
    let n = names::set_named(t, set).ok_or(Refusal::Fntf)?;
    let e = entry_of(t, n);
    if e.kind == 1 {
        return Err(Refusal::Kind);
    }
    let on = names::path_named(t, e, path).ok_or(Refusal::Path)?;
    let p = path_of(e, on);
    let x = entry_of(t, p.master);
    Ok(Located {
        number: n,
        entry: e,
        on,
        path: p,
        masters: x,
    })
}

// 7 to 11 by form.
pub fn with_forms(
    l: Located,
    o: Operation,
    reference: Reference,
    key: &[u8],
    area: &[u8],
) -> Result<(), Refusal>
    requires { Fields l.entry × (l.on < l.entry.count) × (l.masters.key ≤ 16) }
    ensures { status_of result ≡ formed_on o l reference.0 key.now area.now }
{
    let e = l.entry;
    let x = l.masters;
    let link = l.path.reference();
    forms::form_status(o, e, l.on, link.0, x.key, reference.0, key, area)
}

// The masters of every path of the points e: the adds and DELVD are handed these, and not the schema.
pub fn masters_of(t: Schema, e: Entry) -> [Entry; 4]
    requires { VariableIn t e (512 * t.blocks) }
    ensures { MastersOf t e result }
{
    let mut all = [e; 4];
    for k in 0..usize::from(e.count) {
        let p = path_of(e, k);
        all[k] = entry_of(t, p.master);
    }
    all
}
