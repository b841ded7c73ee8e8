// RDNXT, from the name of the set to the record that is given.
ghost use Rattle.std.specs.Prelude.{◌≡◌, length};
ghost use Rattle.terms.specs.declared.Operation.TheVariants.{Rdnxt};
ghost use Rattle.terms.specs.Status.{status_of};
ghost use Rattle.ends.specs.Asks.{Answers};
ghost use Rattle.ends.specs.Ends.{reference_returned};
ghost use Rattle.records.specs.InBase.{Laid};

use schema::Schema;
use sweep::{find_any, rdnxt, with_forms};
use terms::{Reference, Refusal};

pub(crate) fn on_any(
    t: Schema,
    set: &[u8],
    reference: Reference,
    key: &[u8],
    area: &mut [u8],
    base: &[u8],
) -> Result<Reference, Refusal>
    requires laid { Laid t (length base.now) }
    requires set_len { length set.now ≡ 4 }
    ensures { Answers t Rdnxt set.now reference.0 key.now area.old base.now (status_of result) (reference_returned reference.0 result) area.new base.now }
{
    let e = find_any(t, set)?;
    with_forms(e, reference, key, area)?;
    Ok(rdnxt(e, reference, area, base))
}
