// The calls on a set of masters.
#![tactic(auto)]

ghost use Rattle.std.specs.Prelude.{◌≡◌, List, ℕ, ◌*◌, ◌<◌, length, true};
ghost use Rattle.terms.specs.declared.Operation.TheVariants.{AddM, DelM, Readm, Writm, Rqloc};
ghost use Rattle.schema.specs.Decode.{entry_of};
ghost use Rattle.schema.specs.Naming.{set_named};
ghost use Rattle.records.specs.Areas.{is_master, area_length};
ghost use Rattle.records.specs.Fields.{Fields};
ghost use Rattle.terms.specs.declared.Status.TheVariants.{Done};
ghost use Rattle.terms.specs.Status.{status_of};
ghost use Rattle.ends.specs.Ends.{reference_returned};
ghost use Rattle.records.specs.InBase.{Laid, IsMasterSet};
ghost use Rattle.master_calls.specs.Masters.{placed_at, formed_in, AnswersOn, AnswersIn};

use ends::{give, settle};
use master_plans::{add_master, del_master};
use masters::Found;
use masters::held::Masters;
use plans::body_plan;
use schema::layout::entry_of;
use schema::{Entry, Schema};
use terms::{EntryNo, Key, Operation, Reference, Refusal};

// The set that a call on masters speaks of.
#[derive(Clone, Copy)]
pub struct Placed {
    pub number: EntryNo,
    pub entry: Entry,
}

// 4 and 5, of a call on masters.
pub fn find_set(t: Schema, set: &[u8]) -> Result<Placed, Refusal>
    requires laid { Laid t (512 * t.blocks) }
    requires set_len { length set.now ≡ 4 }
    ensures { result ≡ placed_at t (set_named t set.now) }
{
    let n = names::set_named(t, set).ok_or(Refusal::Fntf)?;
    let e = entry_of(t, n);
    if e.kind != 1 {
        return Err(Refusal::Kind);
    }
    Ok(Placed {
        number: n,
        entry: e,
    })
}

// 7 to 11 by form.
pub fn with_forms(
    e: Entry,
    o: Operation,
    reference: Reference,
    key: &[u8],
    area: &[u8],
) -> Result<(), Refusal>
    requires { Fields e × (is_master e ≡ true) }
    ensures { status_of result ≡ formed_in o e reference.0 key.now area.now }
{
    forms::form_status(o, e, 0, 0, e.key, reference.0, key, area)
}

// READM: "Reads, READM too .. return the record's number."
pub fn readm(
    e: Entry,
    reference: Reference,
    key: &[u8],
    area: &mut [u8],
    base: &[u8],
) -> Result<Reference, Refusal>
    requires master_set { IsMasterSet e (length base.now) }
    requires key_len { length key.now ≡ e.key }
    requires area_len { length area.old ≡ area_length e }
    ensures { AnswersOn Readm e reference.0 key.now area.old base.now (status_of result) (reference_returned reference.0 result) area.new base.now }
{
    let masters = Masters::of(base, &e);
    let m = masters.named(Key::of(key))?;
    Ok(give(base, e, Some(m), area))
}

// WRITM: "WRITM and WRITV replace the D bytes." .. "ADD-M, DEL-M, WRITM .. return the reference given."
pub fn writm(
    e: Entry,
    reference: Reference,
    key: &[u8],
    area: &[u8],
    base: &mut [u8],
) -> Result<Reference, Refusal>
    requires master_set { IsMasterSet e (length base.old) }
    requires key_len { length key.now ≡ e.key }
    requires area_len { length area.now ≡ area_length e }
    ensures { AnswersOn Writm e reference.0 key.now area.now base.old (status_of result) (reference_returned reference.0 result) area.now base.new }
{
    let masters = Masters::of(base, &e);
    let m = masters.named(Key::of(key))?;
    settle(base, e, area, body_plan(m), reference)
}

// ADD-M: a master that is there already is refused. The search has met the record that a synonym is linked behind.
pub fn addm(
    e: Entry,
    reference: Reference,
    key: &[u8],
    area: &[u8],
    base: &mut [u8],
) -> Result<Reference, Refusal>
    requires master_set { IsMasterSet e (length base.old) }
    requires key_len { length key.now ≡ e.key }
    requires area_len { length area.now ≡ area_length e }
    ensures { AnswersOn AddM e reference.0 key.now area.now base.old (status_of result) (reference_returned reference.0 result) area.now base.new }
{
    let k = Key::of(key);
    let masters = Masters::of(base, &e);
    let s = masters.find(k);
    match s.found {
        Found::Damaged => Err(Refusal::Damg),
        Found::At(m) => Err(Refusal::Dupm),
        Found::Missing => {
            let plan = add_master(&masters, k.home(e.records), s.last)?;
            settle(base, e, area, plan, reference)
        }
    }
}

// DEL-M of a master of set number n. The area is ignored.
pub fn delm(
    t: Schema,
    n: EntryNo,
    e: Entry,
    reference: Reference,
    key: &[u8],
    area: &[u8],
    base: &mut [u8],
) -> Result<Reference, Refusal>
    requires laid { Laid t (length base.old) }
    requires n_lt_masters { n.0 < t.masters }
    requires e_value { e ≡ entry_of t n.0 }
    requires key_len { length key.now ≡ e.key }
    ensures { AnswersIn t n.0 DelM e reference.0 key.now area.now base.old (status_of result) (reference_returned reference.0 result) area.now base.new }
{
    let k = Key::of(key);
    let masters = Masters::of(base, &e);
    let m = masters.named(k)?;
    let plan = del_master(t, n, &masters, k.home(e.records), m)?;
    settle(base, e, area, plan, reference)
}

// RQLOC: "RQLOC returns the home." It looks for no master and at no reference, is never refused, and neither area nor base is touched.
pub fn rqloc(e: Entry, key: &[u8]) -> Reference
    requires by_index { (n : ℕ) × IsMasterSet e n }
    requires key_len { length key.now ≡ e.key }
    ensures { (r : ℕ) (area b : List ℕ) → AnswersOn Rqloc e r key.now area b Done result.0 area b }
{
    let k = Key::of(key);
    k.home(e.records).into()
}
