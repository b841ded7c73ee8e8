// Where the records of a set lie. Here, and nowhere else, the number of an entry becomes the entry, and the number of a record becomes the
// number of a block, a place in the data base or a part of it. Block numbers and places become one another in `blocks`. Who holds a part or
// a stretch of records steps inside it.
ghost use Rattle.std.specs.Prelude.{◌≡◌, ◌+◌, ◌*◌, ◌≤◌, ◌<◌, min, length};
ghost use Rattle.blocks.specs.Blocks.{block_at};
ghost use Rattle.schema.specs.Decode.{entry_of, path_of, set_count};
ghost use Rattle.schema.specs.Guarantee.{SchemaOk};
ghost use Rattle.schema.specs.Naming.{set_of};
ghost use Rattle.schema.specs.Numbers.{entry_below};
ghost use Rattle.schema.specs.Place.{InSet, LiesIn, block_of, place_of, record_of, part_of, bytes_of, stretch_from, next_stretch, stretch_of, blocks_held, records_held, leftover_of};

use super::{Entry, Part, Path, Schema, Stretch};
use terms::{BlockNo, EntryNo, RecordNo};

// The set of a number.
pub fn entry_of(t: Schema, n: EntryNo) -> Entry
    requires { n.0 < 8 }
    ensures { result ≡ entry_of t n.0 }
{
    let i = n.0 as usize;
    t.entries[i]
}

// How many sets the schema has: eight at most.
pub fn sets(t: Schema) -> u8
    requires { SchemaOk t }
    ensures { result ≡ set_count t }
{
    t.masters + t.variables
}

// The number of the set whose name is that word, if there is one.
pub fn set_of(t: Schema, name: u32) -> Option<EntryNo>
    requires { SchemaOk t }
    ensures { result ≡ entry_below (set_count t) (set_of t name) }
{
    let n = sets(t);
    for i in 0..n {
        let e = t.entries[i as usize];
        if e.name == name {
            return Some(EntryNo(i));
        }
    }
    None
}

// The path in a slot of a set.
pub fn path_of(e: Entry, j: usize) -> Path
    requires { j < 4 }
    ensures { result ≡ path_of e j }
{
    e.paths[j]
}

// "the data base has exactly 512 T bytes": where a block behind the last would begin.
pub fn length_of(t: Schema) -> usize
    ensures { result ≡ block_at t.blocks }
{
    blocks::place_of(BlockNo(t.blocks))
}

// The block of a record. 2,097,152 bytes, 4,096 blocks, are the most that a data base has: numbers of blocks and places fit.
pub fn block_of(e: Entry, r: RecordNo) -> BlockNo
    requires in_set { InSet e r.0 }
    requires lies_in { LiesIn e 2097152 }
    ensures { result.0 ≡ block_of e r.0 }
{
    BlockNo(e.first.0 + (r.0 - 1) / (e.per as u32))
}

// Where a record begins: behind the records before it in its block.
pub fn place_of(e: Entry, r: RecordNo) -> usize
    requires in_set { InSet e r.0 }
    requires lies_in { LiesIn e 2097152 }
    ensures { result ≡ place_of e r.0 }
{
    let before = (r.0 - 1) % (e.per as u32) * e.size;
    blocks::place_of(block_of(e, r)) + (before as usize)
}

// Where a record lies, for who reads or stores it later.
pub fn part_of(e: Entry, r: RecordNo) -> Part
    requires in_set { InSet e r.0 }
    requires lies_in { LiesIn e 2097152 }
    ensures { result ≡ part_of e r.0 }
{
    let at = place_of(e, r);
    Part {
        at: at as u32,
        size: e.size as u16,
    }
}

// The bytes of a part.
pub fn bytes_of(base: &[u8], p: Part) -> &[u8]
    requires { p.at + p.size ≤ length base.now }
    ensures { result.now ≡ bytes_of base.now p }
{
    let at = p.at as usize;
    let end = at + (p.size as usize);
    &base[at..end]
}

// A record, as a part of the data base that starts in the middle of its block.
pub fn record_of(base: &[u8], e: Entry, r: RecordNo) -> &[u8]
    requires in_set { InSet e r.0 }
    requires lies_in { LiesIn e (length base.now) }
    ensures { result.now ≡ record_of base.now e r.0 }
{
    let at = place_of(e, r);
    let end = at + (e.size as usize);
    &base[at..end]
}

// The records from r on in its block.
pub fn stretch_from(e: Entry, r: RecordNo) -> Stretch
    requires in_set { InSet e r.0 }
    requires lies_in { LiesIn e 2097152 }
    ensures { result ≡ stretch_from e r.0 }
{
    let per = e.per as u32;
    let passed = r.0 - 1;
    let at = place_of(e, r);
    Stretch {
        at: at as u32,
        count: (per - passed % per).min(e.records - passed),
    }
}

// Those of the next block, where `passed` records are passed: from stretch to stretch nothing is divided by what the schema says.
pub fn next_stretch(e: Entry, s: Stretch, passed: u32) -> Stretch
    requires { (passed ≤ e.records) × (s.at ≤ 2097152) }
    ensures { result ≡ next_stretch e s passed }
{
    let b = blocks::block_with(s.at);
    let at = blocks::place_of(BlockNo(b.0 + 1));
    Stretch {
        at: at as u32,
        count: (e.per as u32).min(e.records - passed),
    }
}

// The records of a stretch, as a part that starts in the middle of their block.
pub fn records_of(base: &[u8], e: Entry, s: Stretch) -> &[u8]
    requires size_in_bounds { s.at + s.count * e.size ≤ length base.now }
    requires base_len_bound { length base.now ≤ 2097152 }
    ensures { result.now ≡ stretch_of base.now e s }
{
    let at = s.at as usize;
    let end = at + (s.count * e.size) as usize;
    &base[at..end]
}

// How many blocks a set has.
pub fn blocks_held(e: Entry) -> u32
    requires { (e.records ≤ 65535) × (1 ≤ e.per) }
    ensures { (result ≡ blocks_held e) × (result ≤ 131069) }
{
    let per = e.per as u32;
    (e.records + (per - 1)) / per
}

// How many records the k-th block of a set holds: the last block may hold fewer than the others.
fn records_held(e: Entry, k: u32) -> u32
    requires lies_in { LiesIn e 2097152 }
    requires k_bound { k < blocks_held e }
    ensures { result ≡ records_held e k }
{
    let per = e.per as u32;
    per.min(e.records - k * per)
}

// The room of the set's k-th block behind its records, up to the block's check.
pub fn leftover_of(base: &[u8], e: Entry, k: u32) -> &[u8]
    requires lies_in { LiesIn e (length base.now) }
    requires k_bound { k < blocks_held e }
    ensures { result.now ≡ leftover_of base.now e k }
{
    let block = blocks::block(base, BlockNo(e.first.0 + k));
    let at = (records_held(e, k) * e.size) as usize;
    &block[at..508]
}
