// Areas: a record read into one, the D bytes of one stored, and a new record made of one. "Area: for a master, key then D bytes; for a
// variable, its keys in path order, then D bytes."
#![tactic(auto)]

ghost use Rattle.std.specs.Prelude.{◌≡◌, false, ◌++◌, ◌+◌, ◌≤◌, length};
ghost use Rattle.octets.specs.Octets.{run, splice, word_bytes};
ghost use Rattle.schema.specs.Place.{InSet, LiesIn, place_of};
ghost use Rattle.records.specs.Areas.{is_master, area_key_place, area_keys, area_length, area_body, area_of, new_master, new_paths, new_variable};
ghost use Rattle.records.specs.Fields.{Fields};

pub mod given;

use given::Area;
use records::Link;
use records::held::Record;
use schema::layout::{path_of, place_of};
use schema::{Entry, Path};
use terms::RecordNo;

// "state byte (1 live), three zeros", as the first word of a record
const LIVE: u32 = 0x01000000;

// Stores the n bytes from `from` of src at `at` of dst. (kept: a slice of src with its end is no plainer in the four places that copy.)
fn copy_part(dst: &mut [u8], at: usize, src: &[u8], from: usize, n: usize)
    requires n_in_bounds { at + n ≤ length dst.old }
    requires n_in_bounds_2 { from + n ≤ length src.now }
    ensures { dst.new ≡ splice dst.old at (run src.now from n) }
{
    let to = from + n;
    octets::copy_in(dst, at, &src[from..to]);
}

// Where path j's key stands in a variable set's area: behind the keys of the paths before it.
pub fn area_key_place(e: Entry, j: usize) -> usize
    requires { j ≤ 4 }
    ensures { result ≡ area_key_place e j }
{
    let mut at: usize = 0;
    for k in 0..j {
        at += path_of(e, k).len as usize;
    }
    at
}

// How many bytes of an area are keys.
fn area_keys(e: Entry) -> usize
    requires { Fields e }
    ensures { result ≡ area_keys e }
{
    if e.kind == 1 {
        return e.key as usize;
    }
    area_key_place(e, e.count as usize)
}

// How long an area of the set is.
pub fn area_length(e: Entry) -> usize
    requires { Fields e }
    ensures { result ≡ area_length e }
{
    area_keys(e) + (e.room as usize)
}

// Stores the D bytes of an area into the record.
pub fn put_body(base: &mut [u8], r: RecordNo, area: &Area)
    requires in_set { InSet area.now.entry.now r.0 }
    requires lies_in { LiesIn area.now.entry.now (length base.old) }
    ensures { base.new ≡ splice base.old (place_of area.now.entry.now r.0 + area.now.entry.now.body) (area_body area.now.entry.now area.now.bytes.now) }
{
    let e = area.entry;
    let at = place_of(*e, r);
    let end = at + (e.size as usize);
    octets::copy_in(&mut base[at..end], e.body as usize, area.body());
}

// A master's key and D bytes, read into the area.
fn read_master(record: &Record, area: &mut [u8])
    requires fields { Fields record.now.entry.now }
    requires area_len { length area.old ≡ area_length record.now.entry.now }
    requires kind_value { record.now.entry.now.kind ≡ 1 }
    ensures { area.new ≡ area_of record.now.base.now record.now.entry.now record.now.number.0 }
{
    let e = record.entry;
    let part = record.bytes();
    let len = e.key as usize;
    copy_part(area, 0, part, 12, len);
    copy_part(area, len, part, e.body as usize, e.room as usize);
}

// A variable record's keys in path order and its D bytes, read into the area.
fn read_variable(record: &Record, area: &mut [u8])
    requires fields { Fields record.now.entry.now }
    requires area_len { length area.old ≡ area_length record.now.entry.now }
    requires e_value { is_master record.now.entry.now ≡ false }
    ensures { area.new ≡ area_of record.now.base.now record.now.entry.now record.now.number.0 }
{
    let e = *record.entry;
    let part = record.bytes();
    let mut at: usize = 0;
    for j in 0..e.count as usize {
        let p = path_of(e, j);
        copy_part(area, at, part, p.at as usize, p.len as usize);
        at += p.len as usize;
    }
    copy_part(area, at, part, e.body as usize, e.room as usize);
}

// A record read into an area of its set.
pub fn read_area(record: &Record, area: &mut [u8])
    requires fields { Fields record.now.entry.now }
    requires area_len { length area.old ≡ area_length record.now.entry.now }
    ensures { area.new ≡ area_of record.now.base.now record.now.entry.now record.now.number.0 }
{
    if record.entry.kind == 1 {
        read_master(record, area);
        return;
    }
    read_variable(record, area);
}

// The bytes of a new master, field by field: it has no points yet, so every first and last is 0.
fn new_master(part: &mut [u8], root: Link, area: &Area)
    requires part_len { length part.old ≡ area.now.entry.now.body + area.now.entry.now.room }
    requires kind_value { area.now.entry.now.kind ≡ 1 }
    ensures { part.new ≡ splice part.old 0 (new_master area.now.entry.now root area.now.bytes.now) }
{
    let behind = 12 + (area.entry.key as usize);
    let body = area.entry.body as usize;
    octets::put_word(part, 0, LIVE);
    octets::put_word(part, 4, root.next);
    octets::put_word(part, 8, root.prior);
    octets::copy_in(part, 12, area.master_key());
    octets::zero(part, behind, body - behind);
    octets::copy_in(part, body, area.body());
}

// A new master, stored whole at its record.
pub fn put_master(base: &mut [u8], r: RecordNo, root: Link, area: &Area)
    requires in_set { InSet area.now.entry.now r.0 }
    requires lies_in { LiesIn area.now.entry.now (length base.old) }
    requires kind_value { area.now.entry.now.kind ≡ 1 }
    ensures { base.new ≡ splice base.old (place_of area.now.entry.now r.0) (new_master area.now.entry.now root area.now.bytes.now) }
{
    let at = place_of(*area.entry, r);
    let end = at + (area.entry.size as usize);
    new_master(&mut base[at..end], root, area);
}

// "per path key, prior, next": the fields of one path.
fn put_path(part: &mut [u8], at: usize, key: &[u8], link: Link)
    requires { at + length key.now + 8 ≤ length part.old }
    ensures { part.new ≡ splice part.old at (key.now ++ (word_bytes link.prior ++ word_bytes link.next)) }
{
    let behind = at + key.len();
    octets::copy_in(part, at, key);
    octets::put_word(part, behind, link.prior);
    octets::put_word(part, behind + 4, link.next);
}

// The fields of every path of a new variable record.
fn put_paths(part: &mut [u8], links: [Link; 4], area: &Area)
    requires part_len { length part.old ≡ area.now.entry.now.body + area.now.entry.now.room }
    requires e_value { is_master area.now.entry.now ≡ false }
    ensures { part.new ≡ splice part.old 4 (new_paths area.now.entry.now links area.now.bytes.now area.now.entry.now.count 0) }
{
    for j in 0..area.entry.count as usize {
        let p = path_of(*area.entry, j);
        put_path(part, p.at as usize, area.key_on(j), links[j]);
    }
}

// The bytes of a new variable record, field by field.
fn new_variable(part: &mut [u8], links: [Link; 4], area: &Area)
    requires part_len { length part.old ≡ area.now.entry.now.body + area.now.entry.now.room }
    requires e_value { is_master area.now.entry.now ≡ false }
    ensures { part.new ≡ splice part.old 0 (new_variable area.now.entry.now links area.now.bytes.now) }
{
    octets::put_word(part, 0, LIVE);
    put_paths(part, links, area);
    octets::copy_in(part, area.entry.body as usize, area.body());
}

// A new variable record, stored whole at its record.
pub fn put_variable(base: &mut [u8], r: RecordNo, links: [Link; 4], area: &Area)
    requires in_set { InSet area.now.entry.now r.0 }
    requires lies_in { LiesIn area.now.entry.now (length base.old) }
    requires kind_value { area.now.entry.now.kind ≡ 2 }
    ensures { base.new ≡ splice base.old (place_of area.now.entry.now r.0) (new_variable area.now.entry.now links area.now.bytes.now) }
{
    let at = place_of(*area.entry, r);
    let end = at + (area.entry.size as usize);
    new_variable(&mut base[at..end], links, area);
}
