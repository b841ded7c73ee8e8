// The fields of a record.
#![tactic(auto)]

pub mod fields;
pub mod held;

// A record's neighbours on one path, as its two link words: 0 is none. (kept: they are the words of the data base, read and stored as they are.)
#[derive(Clone, Copy)]
pub struct Link {
    pub prior: u32,
    pub next: u32,
}
