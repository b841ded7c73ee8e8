// The calls on masters, from the name of the set to the last store.
ghost use Rattle.std.specs.Prelude.{◌≡◌, length};
ghost use Rattle.terms.specs.Status.{status_of};
ghost use Rattle.ends.specs.Asks.{Answers};
ghost use Rattle.ends.specs.Ends.{reference_returned};
ghost use Rattle.records.specs.InBase.{Laid};
ghost use Rattle.master_calls.specs.Masters.{SetKnown, AnswersIn};
ghost use Rattle.store.specs.Kinds.{master_operation};

use super::kinds::OnMasters;
use master_calls::{Placed, addm, delm, find_set, readm, rqloc, with_forms, writm};
use schema::Schema;
use terms::{Operation, Reference, Refusal};

// The set is known and the parameters have their forms.
fn carry_out(
    t: Schema,
    m: OnMasters,
    p: Placed,
    reference: Reference,
    key: &[u8],
    area: &mut [u8],
    base: &mut [u8],
) -> Result<Reference, Refusal>
    requires laid { Laid t (length base.old) }
    requires set_known { SetKnown t (master_operation m) key.now area.old p.number.0 p.entry }
    ensures { AnswersIn t p.number.0 (master_operation m) p.entry reference.0 key.now area.old base.old (status_of result) (reference_returned reference.0 result) area.new base.new }
{
    match m {
        OnMasters::Add => addm(p.entry, reference, key, area, base),
        OnMasters::Delete => delm(t, p.number, p.entry, reference, key, area, base),
        OnMasters::Read => readm(p.entry, reference, key, area, base),
        OnMasters::Write => writm(p.entry, reference, key, area, base),
        OnMasters::Locate => Ok(rqloc(p.entry, key)),
    }
}

pub(crate) fn on_masters(
    t: Schema,
    m: OnMasters,
    set: &[u8],
    reference: Reference,
    key: &[u8],
    area: &mut [u8],
    base: &mut [u8],
) -> Result<Reference, Refusal>
    requires laid { Laid t (length base.old) }
    requires set_len { length set.now ≡ 4 }
    ensures { Answers t (master_operation m) set.now reference.0 key.now area.old base.old (status_of result) (reference_returned reference.0 result) area.new base.new }
{
    let p = find_set(t, set)?;
    with_forms(p.entry, Operation::from(m), reference, key, area)?;
    carry_out(t, m, p, reference, key, area, base)
}
