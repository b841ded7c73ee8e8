// What a schema that keeps the form's rules says, with the layout of its sets: document 01, "Blocks and the schema". One pass over the
// slots numbers the paths to each master, and one over the entries lays the sets out, entry by entry.
ghost use Rattle.std.specs.Prelude.{◌≡◌, true, ◌+◌, ◌*◌, ◌/◌, ◌≤◌, ◌<◌, length};
ghost use Rattle.octets.specs.Below.{upto};
ghost use Rattle.schema.specs.Fields.{sets_of, count_of, master_of};
ghost use Rattle.schema.specs.Rules.{master_of_slot, form_rule};
ghost use Rattle.schema.specs.Formed.{Formed};
ghost use Rattle.schema.specs.Layout.{links_before, path_key_length, key_place, body_place, first_block};
ghost use Rattle.schema.specs.Decode.{empty_path, empty_entry, path_from, decoded_schema, full_path, full_entry};
ghost use Rattle.decode.specs.Decoding.{Counted, PathAt};

use rules::fields;
use schema::layout::blocks_held;
use schema::{Entry, Path, Schema};
use terms::{BlockNo, EntryNo};

// The paths to each master, counted.
#[derive(Clone, Copy)]
pub(crate) struct Links {
    pub number: [u8; 32], // how many paths to its master stand before that in slot q
    pub total: [u8; 4], // how many lead to master m
}

// The master that the path in slot q leads to.
fn master_of(s: &[u8], q: usize) -> usize
    requires { (length s.now ≡ 512) × (q < 32) }
    ensures { result ≡ master_of_slot s.now q }
{
    usize::from(s[16 + q / 4 * 48 + 16 + q % 4 * 8 + 2])
}

// The counts, one slot further.
fn step(s: &[u8], q: usize, l: Links) -> Links
    requires formed { Formed s.now }
    requires q_bound { q < 4 * sets_of s.now }
    requires counted { Counted s.now q l }
    ensures { Counted s.now (q + 1) result }
{
    if !fields::used(s, q) {
        return l;
    }
    let m = master_of(s, q);
    let mut number = l.number;
    let mut total = l.total;
    let n = total[m];
    number[q] = n;
    total[m] = n + 1;
    Links { number, total }
}

fn counted(s: &[u8]) -> Links
    requires { Formed s.now }
    ensures { Counted s.now (4 * sets_of s.now) result }
{
    let mut l = Links {
        number: [0; 32],
        total: [0; 4],
    };
    for q in 0..4 * fields::sets(s) {
        l = step(s, q, l);
    }
    l
}

// A key of `len` bytes and the two pointers after it, from `at` on: what follows them.
fn past_key(at: u16, len: u8) -> u16
    requires { at ≤ 1056 }
    ensures { (result ≡ at + (len + 8)) × (result ≤ at + 263) }
{
    at + (u16::from(len) + 8)
}

// What stands in front of the pointers of a path in a master's record: state, ROOT pointers, key, and n pairs of pointers.
fn past_links(key: u8, n: u8) -> u16
    ensures { result ≡ 12 + key + 8 * n }
{
    12 + u16::from(key) + 8 * u16::from(n)
}

// The length of a key on path j of set i: its master's.
fn key_length(s: &[u8], i: usize, j: usize) -> u8
    requires { PathAt s.now i j }
    ensures { result ≡ path_key_length s.now i j }
{
    let m = usize::from(s[16 + i * 48 + 16 + j * 8 + 2]);
    s[16 + m * 48 + 12]
}

// Where the key of path j stands in a record of set i; for j past the last path, where the D bytes stand.
fn key_place(s: &[u8], i: usize, j: usize) -> u16
    requires formed { Formed s.now }
    requires i_bound { (i < sets_of s.now) × (j ≤ count_of s.now i) }
    ensures { result ≡ key_place s.now i j }
{
    let mut at: u16 = 4;
    for k in 0..j {
        at = past_key(at, key_length(s, i, k));
    }
    at
}

// Path j of set i, whose key stands at `at`, with n paths to its master before it.
fn path(s: &[u8], i: usize, j: usize, at: u16, n: u8) -> Path
    requires path_at { PathAt s.now i j }
    requires at_value { at ≡ key_place s.now i j }
    requires n_value { n ≡ links_before s.now (master_of s.now i j) (4 * i + j) }
    ensures { result ≡ full_path s.now i j }
{
    let slot = 16 + i * 48 + 16 + j * 8;
    let len = key_length(s, i, j);
    Path {
        letters: [s[slot], s[slot + 1]],
        master: EntryNo(s[slot + 2]),
        len,
        at,
        link: past_links(len, n),
    }
}

fn no_path() -> Path
    ensures { result ≡ empty_path }
{
    Path {
        letters: [0, 0],
        master: EntryNo(0),
        len: 0,
        at: 0,
        link: 0,
    }
}

// The four slots of set i.
fn paths(s: &[u8], i: usize, l: Links) -> [Path; 4]
    requires formed { Formed s.now }
    requires i_bound { i < sets_of s.now }
    requires counted { Counted s.now (4 * sets_of s.now) l }
    ensures { result ≡ upto (path_from s.now i) 4 }
{
    let mut paths = [no_path(); 4];
    for j in 0..fields::paths(s, i) {
        let n = l.number[4 * i + j];
        let at = key_place(s, i, j);
        paths[j] = path(s, i, j, at, n);
    }
    paths
}

// Where the D bytes stand in a record of set i.
fn body(s: &[u8], i: usize, l: Links) -> u16
    requires formed { Formed s.now }
    requires i_bound { i < sets_of s.now }
    requires counted { Counted s.now (4 * sets_of s.now) l }
    ensures { (result ≡ body_place s.now i) × (4 ≤ result) }
{
    if i < fields::masters(s) {
        let n = l.total[i];
        return past_links(s[16 + i * 48 + 12], n);
    }
    key_place(s, i, fields::paths(s, i))
}

// L, the record length, wide enough for any D.
fn length_of(body: u16, room: u16) -> u32
    ensures { result ≡ body + room }
{
    u32::from(body) + u32::from(room)
}

// "floor(508/L) whole records to a block"
fn per_block(size: u32) -> u16
    requires { 1 ≤ size }
    ensures { result ≡ 508 / size }
{
    (508 / size) as u16
}

// Set i, whose records begin in block `first`.
fn set(s: &[u8], i: usize, l: Links, first: u32) -> Entry
    requires formed { Formed s.now }
    requires i_bound { i < sets_of s.now }
    requires counted { Counted s.now (4 * sets_of s.now) l }
    requires first_value { first ≡ first_block s.now i }
    ensures { result ≡ full_entry s.now i }
{
    let at = 16 + i * 48;
    let room = octets::half(s, at + 6);
    let body = body(s, i, l);
    let size = length_of(body, room);
    let per = per_block(size);
    Entry {
        name: octets::word(s, at),
        kind: s[at + 4],
        count: s[at + 5],
        room,
        records: octets::word(s, at + 8),
        key: s[at + 12],
        edition: s[0],
        per,
        size,
        body,
        first: BlockNo(first),
        paths: paths(s, i, l),
    }
}

fn no_entry() -> Entry
    ensures { result ≡ empty_entry }
{
    Entry {
        name: 0,
        kind: 0,
        count: 0,
        room: 0,
        records: 0,
        key: 0,
        edition: 0,
        per: 0,
        size: 0,
        body: 0,
        first: BlockNo(0),
        paths: [no_path(); 4],
    }
}

// The sets laid out one after the other, unless a record is too long or all together take too many blocks: "L the record length, at
// most 508", "T blocks, at most 4,096".
fn laid_out(s: &[u8], l: Links) -> Option<Schema>
    requires formed { Formed s.now }
    requires s_value { form_rule s.now ≡ true }
    requires counted { Counted s.now (4 * sets_of s.now) l }
    ensures { result ≡ decoded_schema s.now }
{
    let mut entries = [no_entry(); 8];
    let mut first: u32 = 0;
    for i in 0..fields::sets(s) {
        let e = set(s, i, l, first);
        if 508 < e.size {
            return None;
        }
        first += blocks_held(e);
        entries[i] = e;
    }
    if 4096 < first {
        return None;
    }
    Some(Schema {
        edition: s[0],
        masters: s[1],
        variables: s[2],
        blocks: first,
        entries,
    })
}

// What a schema says that keeps the form's rules.
pub(crate) fn decoded(s: &[u8]) -> Option<Schema>
    requires { form_rule s.now ≡ true }
    ensures { result ≡ decoded_schema s.now }
{
    let l = counted(s);
    laid_out(s, l)
}
