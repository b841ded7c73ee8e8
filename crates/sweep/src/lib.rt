// RDNXT: the live records of a set of either kind, one after the other by their numbers.
#![tactic(auto)]

ghost use Rattle.std.specs.Prelude.{◌≡◌, ◌*◌, ◌≤◌, length};
ghost use Rattle.schema.specs.Naming.{set_named};
ghost use Rattle.records.specs.Areas.{area_length};
ghost use Rattle.records.specs.InBase.{Laid, IsSet};
ghost use Rattle.terms.specs.declared.Status.TheVariants.{Done};
ghost use Rattle.terms.specs.Status.{status_of};
ghost use Rattle.records.specs.Fields.{Fields};
ghost use Rattle.sweep.specs.Swept.{swept_at, formed_any, SweptOn};

use ends::give;
use records::held::Set;
use scan::next_live;
use schema::layout::entry_of;
use schema::{Entry, Schema};
use terms::{Operation, Reference, Refusal};

// 4: RDNXT takes sets of both kinds, and its path is not looked at.
pub fn find_any(t: Schema, set: &[u8]) -> Result<Entry, Refusal>
    requires laid { Laid t (512 * t.blocks) }
    requires set_len { length set.now ≡ 4 }
    ensures { result ≡ swept_at t (set_named t set.now) }
{
    let n = names::set_named(t, set).ok_or(Refusal::Fntf)?;
    Ok(entry_of(t, n))
}

// 7 and 11 by form: of RDNXT's key nothing is asked.
pub fn with_forms(e: Entry, reference: Reference, key: &[u8], area: &[u8]) -> Result<(), Refusal>
    requires { Fields e }
    ensures { status_of result ≡ formed_any e reference.0 key.now area.now }
{
    forms::form_status(Operation::Rdnxt, e, 0, 0, e.key, reference.0, key, area)
}

// "RDNXT reads the next live one above the reference, 0 to begin". It is never refused.
pub fn rdnxt(e: Entry, reference: Reference, area: &mut [u8], base: &[u8]) -> Reference
    requires set { IsSet e (length base.now) }
    requires reference_le_records { reference.0 ≤ e.records }
    requires area_len { length area.old ≡ area_length e }
    ensures { SweptOn e reference.0 area.old base.now Done result.0 area.new base.now }
{
    give(base, e, next_live(&Set::of(base, &e), reference.0), area)
}
