// The part of sign-on's judgement that looks at bytes alone: checks, states, fillers, free records and leftovers. Each function answers
// what one definition of sound/specs/Sound.antt says, and leaves at the first byte that is wrong.
#![tactic(auto)]

ghost use Rattle.std.specs.Prelude.{◌≡◌, ◌*◌, ◌≤◌, ◌<◌, length};
ghost use Rattle.octets.specs.Below.{all_below};
ghost use Rattle.blocks.specs.Blocks.{is_sealed};
ghost use Rattle.schema.specs.Place.{blocks_held};
ghost use Rattle.sound.specs.Sound.{each_record, checks_true, record_clean, leftover_clean, set_clean};

use blocks::Check;
use records::held::{Record, Set};
use schema::Schema;
use schema::layout::{blocks_held, leftover_of};
use terms::{BlockNo, RecordNo};

// Are the checks of the first n blocks true?
fn sealed_below(base: &[u8], n: u32, k: Check) -> bool
    requires { n * 512 ≤ length base.now }
    ensures { result ≡ all_below (is_sealed k base.now) n }
{
    (0..n).all(|i| blocks::sealed(base, BlockNo(i), k))
}

// "all checks true"
pub fn checks_true(base: &[u8], t: Schema) -> bool
    requires { t.blocks * 512 ≤ length base.now }
    ensures { result ≡ checks_true t base.now }
{
    sealed_below(base, t.blocks, t.edition.into())
}

// A live record has three zeros behind its state; any other record is all zero, so that its state is 0.
#[tactic(auto, using(crate::specs::CleanLaws::clean_live, crate::specs::CleanLaws::clean_free))]
fn record_clean(record: &Record) -> bool
    requires { 4 ≤ record.now.entry.now.size }
    ensures { result ≡ record_clean record.now.base.now record.now.entry.now record.now.number.0 }
{
    let part = record.bytes();
    if record.is_live() {
        return octets::all(&part[1..4], 0);
    }
    octets::all(part, 0)
}

fn records_clean(set: &Set) -> bool
    requires { 4 ≤ set.now.entry.now.size }
    ensures { result ≡ each_record set.now.entry.now (record_clean set.now.base.now set.now.entry.now) }
{
    (0..set.entry.records).all(|k| record_clean(&set.record(RecordNo(k + 1))))
}

// "Room after records is zero.": up to the block's check.
fn leftover_clean(set: &Set, k: u32) -> bool
    requires { k < blocks_held set.now.entry.now }
    ensures { result ≡ leftover_clean set.now.base.now set.now.entry.now k }
{
    octets::all(leftover_of(set.base, *set.entry, k), 0)
}

fn leftovers_clean(set: &Set) -> bool
    ensures { result ≡ all_below (leftover_clean set.now.base.now set.now.entry.now) (blocks_held set.now.entry.now) }
{
    (0..blocks_held(*set.entry)).all(|k| leftover_clean(set, k))
}

// "states 0 or 1; free records, fillers and leftovers zero"
pub fn set_clean(set: &Set) -> bool
    requires { 4 ≤ set.now.entry.now.size }
    ensures { result ≡ set_clean set.now.base.now set.now.entry.now }
{
    records_clean(set) && leftovers_clean(set)
}
