// The store: one call, with document 01's parameters. A call reads and tests, makes a plan, and commits it.
#![tactic(auto)]

ghost use Rattle.std.specs.Prelude.{◌≡◌, ◌+◌, ◌*◌, length, cond};
ghost use Rattle.terms.specs.declared.Status.TheVariants.{Done, Damg};
ghost use Rattle.sound.specs.Sound.{sound};
ghost use Rattle.calls.specs.Call.{call_of};
ghost use Rattle.calls.specs.Outcome.{IsOutcome};
ghost use Rattle.calls.specs.Word.{upper_half, lower_half, IsWord};
ghost use Rattle.records.specs.InBase.{Laid};
ghost use Rattle.store.specs.Decides.{Decides};
ghost use Rattle.terms.specs.Status.{status_of};
ghost use Rattle.ends.specs.Ends.{reference_returned};

use ends::Answer;
use kinds::Kind;
use on_any::on_any;
use on_masters::on_masters;
use on_points::on_points;
use schema::Schema;
use schema::layout::length_of;
use terms::{Operation, Reference, Refusal};

pub mod kinds;
mod on_any;
mod on_masters;
mod on_points;

// SINON: "SINON only judges soundness."
fn sign_on(t: Schema, reference: Reference, base: &[u8]) -> Result<Reference, Refusal>
    requires { Laid t (length base.now) }
    ensures status { status_of result ≡ cond (sound t base.now) Done Damg }
    ensures reference { reference_returned reference.0 result ≡ reference.0 }
{
    if !signon::sign_on(base, t) {
        return Err(Refusal::Damg);
    }
    Ok(reference)
}

// A call under a schema that keeps the rules, on a base of its length.
fn perform(
    t: Schema,
    o: Operation,
    set: &[u8],
    reference: Reference,
    path: &[u8],
    key: &[u8],
    area: &mut [u8],
    base: &mut [u8],
) -> Result<Reference, Refusal>
    requires laid { Laid t (length base.old) }
    requires set_len { length set.now ≡ 4 }
    ensures { Decides t o set.now reference.0 path.now key.now area.old base.old (status_of result) (reference_returned reference.0 result) area.new base.new }
{
    let kind = Kind::from(o);
    match kind {
        Kind::Format => {
            format::format(base, t.blocks);
            Ok(reference)
        }
        Kind::SignOn => sign_on(t, reference, base),
        Kind::Sweep => on_any(t, set, reference, key, area, base),
        Kind::Masters(m) => on_masters(t, m, set, reference, key, area, base),
        Kind::Points(p) => on_points(t, p, set, path, reference, key, area, base),
        Kind::Unknown => Err(Refusal::Func),
    }
}

// A call under a schema that keeps the rules.
fn under(
    t: Schema,
    o: Operation,
    set: &[u8],
    reference: Reference,
    path: &[u8],
    key: &[u8],
    area: &mut [u8],
    base: &mut [u8],
) -> Result<Reference, Refusal>
    requires laid { Laid t (512 * t.blocks) }
    requires set_len { length set.now ≡ 4 }
    ensures { Decides t o set.now reference.0 path.now key.now area.old base.old (status_of result) (reference_returned reference.0 result) area.new base.new }
{
    if base.len() != length_of(t) {
        return Err(Refusal::Size);
    }
    perform(t, o, set, reference, path, key, area, base)
}

// One call. "A call is given: operation (5 bytes), set name (4), reference (32 bits), path name (8), control key, area, schema, data base. It
// returns status and reference."
pub fn call(
    op: &[u8; 5],
    set: &[u8; 4],
    reference: Reference,
    path: &[u8; 8],
    key: &[u8],
    area: &mut [u8],
    schema: &[u8],
    base: &mut [u8],
) -> Answer
    ensures { IsOutcome (call_of op.now set.now reference.0 path.now key.now area.old schema.now base.old) (record { status = result.status; reference = result.reference.0; area = area.new; base = base.new }) }
{
    let ended = match decode::decode(schema) {
        Some(t) => under(
            t,
            Operation::from(op),
            set,
            reference,
            path,
            key,
            area,
            base,
        ),
        None => Err(Refusal::Schm),
    };
    Answer::of(ended, reference)
}

// Status and reference as the two halves of one word, for C.
fn one_word(status: u32, reference: u32) -> u64
    ensures { (upper_half result ≡ status) × (lower_half result ≡ reference) }
{
    (status as u64) * 4294967296 + (reference as u64)
}

// The same call as C makes it: the status in the upper half of the answer, the reference in the lower. `store_c` exports it.
pub fn yarugota_call(
    op: &[u8; 5],
    set: &[u8; 4],
    reference: u32,
    path: &[u8; 8],
    key: &[u8],
    area: &mut [u8],
    schema: &[u8],
    base: &mut [u8],
) -> u64
    ensures { IsWord (call_of op.now set.now reference path.now key.now area.old schema.now base.old) result area.new base.new }
{
    let a = call(op, set, Reference(reference), path, key, area, schema, base);
    one_word(u32::from(a.status), a.reference.0)
}
