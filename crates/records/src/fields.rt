// The fields of a record, stored one by one, each by one splice of the data base. A field lies within its record: the schema's layout says so.
// They are read from a record that is held (`held`); a key also from one of which nobody says that it has a state.
ghost use Rattle.std.specs.Prelude.{◌≡◌, ◌+◌, ◌≤◌, length};
ghost use Rattle.octets.specs.Octets.{run, set_word, splice, zeros, same_bytes};
ghost use Rattle.terms.specs.Terms.{key_of, key_from};
ghost use Rattle.schema.specs.Place.{InSet, LiesIn, place_of, record_of};

use schema::Entry;
use schema::layout::{place_of, record_of};
use terms::{Key, RecordNo};

// Is the key the one at a place of the record?
pub fn key_is(base: &[u8], e: &Entry, r: RecordNo, o: usize, k: Key) -> bool
    requires in_set { InSet e.now r.0 }
    requires lies_in { LiesIn e.now (length base.now) }
    requires len_bound { (k.len ≤ 16) × (o + k.len ≤ e.now.size) }
    ensures { result ≡ same_bytes (key_of k) (run base.now (place_of e.now r.0 + o) k.len) }
{
    k.at(record_of(base, *e, r), o)
}

// The key at a place of the record.
pub fn key_in(base: &[u8], e: &Entry, r: RecordNo, o: usize, len: usize) -> Key
    requires in_set { InSet e.now r.0 }
    requires lies_in { LiesIn e.now (length base.now) }
    requires len_bound { (len ≤ 16) × (o + len ≤ e.now.size) }
    ensures { (key_of result ≡ run base.now (place_of e.now r.0 + o) len) × (result.len ≡ len) × (result ≡ key_from (run base.now (place_of e.now r.0 + o) len)) }
{
    Key::part(record_of(base, *e, r), o, len)
}

// Stores a word at a place of the record.
pub fn put_word_in(base: &mut [u8], e: Entry, r: RecordNo, o: usize, v: u32)
    requires in_set { InSet e r.0 }
    requires lies_in { LiesIn e (length base.old) }
    requires o_bound { o + 4 ≤ e.size }
    ensures { base.new ≡ set_word base.old (place_of e r.0 + o) v }
{
    let at = place_of(e, r);
    let end = at + (e.size as usize);
    octets::put_word(&mut base[at..end], o, v);
}

// "A wiped record is all zero."
pub fn wipe(base: &mut [u8], e: Entry, r: RecordNo)
    requires in_set { InSet e r.0 }
    requires lies_in { LiesIn e (length base.old) }
    ensures { base.new ≡ splice base.old (place_of e r.0) (zeros e.size) }
{
    let at = place_of(e, r);
    let size = e.size as usize;
    let end = at + size;
    octets::zero(&mut base[at..end], 0, size);
}

// Stores all the bytes of one record over another of the same set. Two records of a set lie apart, so they are moved inside the data base
// and no copy of the record is held.
pub fn move_record(base: &mut [u8], e: Entry, from: RecordNo, to: RecordNo)
    requires in_set { InSet e from.0 }
    requires in_set_2 { InSet e to.0 }
    requires lies_in { LiesIn e (length base.old) }
    requires fact { from.0 ≡ to.0 → ⊥ }
    ensures { base.new ≡ splice base.old (place_of e to.0) (record_of base.old e from.0) }
{
    octets::move_within(base, place_of(e, from), place_of(e, to), e.size as usize);
}
