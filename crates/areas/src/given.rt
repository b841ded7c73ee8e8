// An area as a call gives it, and its parts. That it has its set's length is a fact of the type: who has an area proves nothing of its keys.
ghost use Rattle.std.specs.Prelude.{◌≡◌, false, ◌<◌, ◌≤◌, length, eqb, is_some, IfSome};
ghost use Rattle.schema.specs.Decode.{path_of};
ghost use Rattle.records.specs.Areas.{is_master, area_length, area_master_key, area_key_on, area_body};
ghost use Rattle.records.specs.Fields.{Fields};

use schema::Entry;
use schema::layout::path_of;

#[derive(Clone, Copy)]
pub struct Area<'a> {
    pub bytes: &'a [u8],
    pub entry: &'a Entry,
    ghost fields: { Fields entry.now },
    ghost sized: { length bytes.now ≡ area_length entry.now },
}

impl<'a> Area<'a> {
    // The area of a set, whose length it has.
    pub fn of(bytes: &'a [u8], entry: &'a Entry) -> Area<'a>
        requires fields { Fields entry.now }
        requires area_len { length bytes.now ≡ area_length entry.now }
        ensures { (result.bytes.now ≡ bytes.now) × (result.entry.now ≡ entry.now) }
    {
        Area { bytes, entry }
    }

    // The same, where it has that length.
    pub fn fitting(bytes: &'a [u8], entry: &'a Entry) -> Option<Area<'a>>
        requires { Fields entry.now }
        ensures fits { is_some result ≡ eqb (length bytes.now) (area_length entry.now) }
        ensures value { IfSome result (λ area. (area.bytes.now ≡ bytes.now) × (area.entry.now ≡ entry.now)) }
    {
        if bytes.len() != crate::area_length(*entry) {
            return None;
        }
        Some(Area::of(bytes, entry))
    }

    // A master's key.
    pub fn master_key(&self) -> &'a [u8]
        requires { self.now.entry.now.kind ≡ 1 }
        ensures value { result.now ≡ area_master_key self.now.entry.now self.now.bytes.now }
        ensures len { (length result.now ≡ self.now.entry.now.key) × (length result.now ≤ 16) }
    {
        &self.bytes[..self.entry.key as usize]
    }

    // A variable's key on path j.
    pub fn key_on(&self, j: usize) -> &'a [u8]
        requires { (is_master self.now.entry.now ≡ false) × (j < self.now.entry.now.count) }
        ensures value { result.now ≡ area_key_on self.now.entry.now self.now.bytes.now j }
        ensures len { (length result.now ≡ (path_of self.now.entry.now j).len) × (length result.now ≤ 16) }
    {
        let at = crate::area_key_place(*self.entry, j);
        let len = path_of(*self.entry, j).len as usize;
        &self.bytes[at..at + len]
    }

    // The D bytes.
    pub fn body(&self) -> &'a [u8]
        ensures value { result.now ≡ area_body self.now.entry.now self.now.bytes.now }
        ensures len { length result.now ≡ self.now.entry.now.room }
    {
        &self.bytes[crate::area_keys(*self.entry)..]
    }
}
