// The calls on points, from the names of set and path to the last store.
ghost use Rattle.std.specs.Prelude.{◌≡◌, length};
ghost use Rattle.terms.specs.Status.{status_of};
ghost use Rattle.records.specs.InBase.{Laid};
ghost use Rattle.ends.specs.Ends.{reference_returned};
ghost use Rattle.point_calls.specs.OnPath.{PathKnown};
ghost use Rattle.store.specs.Kinds.{point_operation};
ghost use Rattle.store.specs.Decides.{AnswersNamed, AnswersUnder};

use super::kinds::OnPoints;
use point_calls::Located;
use point_calls::paths::{find_path, masters_of, with_forms};
use point_calls::reads::{read_along, readd};
use point_calls::writes::{Spot, add_at, delvd, writv};
use schema::Schema;
use terms::{Operation, RecordNo, Reference, Refusal};

// Set and path are known and the parameters have their forms. The adds and DELVD are handed the masters of every path.
fn carry_out(
    t: Schema,
    m: OnPoints,
    l: Located,
    reference: Reference,
    key: &[u8],
    area: &mut [u8],
    base: &mut [u8],
) -> Result<Reference, Refusal>
    requires laid { Laid t (length base.old) }
    requires path_known { PathKnown t (point_operation m) reference.0 key.now area.old l.number.0 l.entry l.on l.path l.masters }
    ensures { AnswersUnder t (point_operation m) l reference.0 key.now area.old base.old (status_of result) (reference_returned reference.0 result) area.new base.new }
{
    let r = RecordNo(reference.0);
    match m {
        OnPoints::ReadNext => read_along(l, reference, key, false, area, base),
        OnPoints::ReadPrior => read_along(l, reference, key, true, area, base),
        OnPoints::Read => readd(l, reference, key, area, base),
        OnPoints::Write => writv(l, reference, key, area, base),
        OnPoints::AddLast => add_at(
            l,
            masters_of(t, l.entry),
            reference,
            Spot::Last,
            key,
            area,
            base,
        ),
        OnPoints::AddBefore => add_at(
            l,
            masters_of(t, l.entry),
            reference,
            Spot::Before(r),
            key,
            area,
            base,
        ),
        OnPoints::AddAfter => add_at(
            l,
            masters_of(t, l.entry),
            reference,
            Spot::After(r),
            key,
            area,
            base,
        ),
        OnPoints::Delete => delvd(l, masters_of(t, l.entry), reference, key, area, base),
    }
}

pub(crate) fn on_points(
    t: Schema,
    m: OnPoints,
    set: &[u8],
    path: &[u8],
    reference: Reference,
    key: &[u8],
    area: &mut [u8],
    base: &mut [u8],
) -> Result<Reference, Refusal>
    requires laid { Laid t (length base.old) }
    requires set_len { length set.now ≡ 4 }
    ensures { AnswersNamed t (point_operation m) set.now path.now reference.0 key.now area.old base.old (status_of result) (reference_returned reference.0 result) area.new base.new }
{
    let l = find_path(t, set, path)?;
    with_forms(l, Operation::from(m), reference, key, area)?;
    carry_out(t, m, l, reference, key, area, base)
}
