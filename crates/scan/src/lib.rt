// The scans of a set, of either kind: the lowest-numbered free record, and the next live one. A scan goes from stretch to stretch as the
// layout hands them out, block by block. In a stretch the records lie one behind the other: from state to state there is no division.
#![tactic(auto)]

ghost use Rattle.std.specs.Prelude.{◌≡◌, ◌+◌, ◌*◌, ◌-◌, ◌≤◌, ◌<◌, length};
ghost use Rattle.octets.specs.Below.{lowest_from};
ghost use Rattle.schema.specs.Numbers.{number_below, record_up_to};
ghost use Rattle.schema.specs.Place.{LiesIn};
ghost use Rattle.scan.specs.Scan.{lowest_free, next_live};
ghost use Rattle.scan.specs.Wanted.{wanted_above, wanted_in};

use records::held::Set;
use schema::Entry;
use schema::layout::{next_stretch, records_of, stretch_from};
use terms::RecordNo;

// Of n records that lie one behind the other, `size` bytes each: how many come before the first live one, or free one, if there is one.
// (kept: `p` beside `i`. `chunks_exact` with `position` took 5 % longer on records of 32 bytes, in the loop that every add waits for.)
fn in_block(records: &[u8], size: usize, n: u32, live: bool) -> Option<u32>
    requires size_in_bounds { n * size ≤ length records.now }
    requires le_size { 1 ≤ size }
    ensures { result ≡ number_below n (lowest_from (wanted_in live records.now size) n 0) }
{
    let mut p: usize = 0;
    for i in 0..n {
        let state = records[p];
        if (state == 1) == live {
            return Some(i);
        }
        p += size;
    }
    None
}

// The lowest-numbered live record, or free one, above `from`, if there is one. The first block is entered at its first record above `from`,
// the others at their beginning.
fn scan(set: &Set, from: u32, live: bool) -> Option<RecordNo>
    requires { from < set.now.entry.now.records }
    ensures { result ≡ record_up_to set.now.entry.now.records (wanted_above live set.now.base.now set.now.entry.now from) }
{
    let e = *set.entry;
    let size = e.size as usize;
    let mut passed = from;
    let mut s = stretch_from(e, RecordNo(from + 1));
    while passed < e.records {
        let n = s.count;
        if let Some(i) = in_block(records_of(set.base, e, s), size, n, live) {
            return Some(RecordNo(passed + 1 + i));
        }
        passed += n;
        s = next_stretch(e, s, passed);
    }
    None // no record is left
}

// "The lowest-numbered free record", if there is one.
pub fn lowest_free(set: &Set) -> Option<RecordNo>
    requires { 1 ≤ set.now.entry.now.records }
    ensures { result ≡ record_up_to set.now.entry.now.records (lowest_free set.now.base.now set.now.entry.now) }
{
    scan(set, 0, false)
}

// "The next live one above the reference, 0 to begin", if there is one.
pub fn next_live(set: &Set, from: u32) -> Option<RecordNo>
    requires { from ≤ set.now.entry.now.records }
    ensures { result ≡ record_up_to set.now.entry.now.records (next_live set.now.base.now set.now.entry.now from) }
{
    if from == set.entry.records {
        return None;
    }
    scan(set, from, true)
}
