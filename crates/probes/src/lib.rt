// C entries to the proved leaves, so that tests and examples in C and Rust can compare and show them. Each takes buffers of any length and
// contents and refuses what is bad by its answer. kept: all ones for no place, and 0 and 1 for no and yes, since C's callers are promised them.
#![tactic(auto)]

ghost use Rattle.std.specs.Prelude.{◌≡◌, ◌<◌};
ghost use Rattle.blocks.specs.declared.Check.TheVariants.{Sum};
ghost use Rattle.schema.specs.Place.{LiesIn};
ghost use Rattle.schema.specs.Guarantee.{SchemaOk};
ghost use Rattle.probes.specs.Probes.{blocks_in, place_in_set, place_under, place_in, sealed_alone, seal_alone, seal_answer};

use blocks::Check;
use schema::{Entry, Schema, layout};
use terms::{BlockNo, EntryNo, RecordNo};

// What stands for no place.
const NOWHERE: u64 = 18446744073709551615;

// T, or 0 where the schema breaks a rule.
#[unsafe(no_mangle)]
pub extern "C" fn yarugota_schema_blocks(schema: &[u8]) -> u32
    ensures { result ≡ blocks_in schema.now }
{
    match decode::decode(schema) {
        Some(t) => t.blocks,
        None => 0,
    }
}

fn place_in_set(e: Entry, number: u32) -> u64
    requires { LiesIn e 2097152 }
    ensures { result ≡ place_in_set e number }
{
    if number < 1 {
        return NOWHERE;
    }
    if e.records < number {
        return NOWHERE;
    }
    layout::place_of(e, RecordNo(number)) as u64
}

fn place_under(t: Schema, entry: u32, number: u32) -> u64
    requires { SchemaOk t }
    ensures { result ≡ place_under t entry number }
{
    if u32::from(layout::sets(t)) <= entry {
        return NOWHERE;
    }
    let e = layout::entry_of(t, EntryNo(entry as u8));
    place_in_set(e, number)
}

// Where a record begins, or all ones where the schema breaks a rule or has no such record.
#[unsafe(no_mangle)]
pub extern "C" fn yarugota_record_place(schema: &[u8], entry: u32, number: u32) -> u64
    ensures { result ≡ place_in schema.now entry number }
{
    match decode::decode(schema) {
        Some(t) => place_under(t, entry, number),
        None => NOWHERE,
    }
}

// Is this one block whose check is true for this number?
#[unsafe(no_mangle)]
pub extern "C" fn yarugota_block_sealed(block: &[u8], number: u32) -> u32
    ensures { result ≡ sealed_alone Sum block.now number }
{
    if block.len() != 512 {
        return 0;
    }
    if octets::word(block, 508) != blocks::check_of(block, BlockNo(number), Check::Sum) {
        return 0;
    }
    1
}

// Sets the check of one block; another length is left alone.
#[unsafe(no_mangle)]
pub extern "C" fn yarugota_block_seal(block: &mut [u8], number: u32) -> u32
    ensures { (result ≡ seal_answer block.old) × (block.new ≡ seal_alone Sum block.old number) }
{
    if block.len() != 512 {
        return 0;
    }
    let v = blocks::check_of(block, BlockNo(number), Check::Sum);
    octets::put_word(block, 508, v);
    1
}
