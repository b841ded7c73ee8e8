// The schema: what it says once it is decoded, and where its sets lie.
#![tactic(auto)]

ghost use Rattle.std.specs.Prelude.{◌≡◌, ◌<◌, get_or};
ghost use Rattle.schema.specs.Naming.{link_of};

use terms::{BlockNo, EntryNo, Reference};

pub mod layout;

// A path of a variable set, with what every call on it needs.
#[derive(Clone, Copy)]
pub struct Path {
    pub letters: [u8; 2], // xx
    pub master: EntryNo,
    pub len: u8, // the master's key length
    pub at: u16, // where the path's key stands in the variable record; prior and next follow the key
    pub link: u16, // where first stands in the master's record; last follows it
}

impl Path {
    // LKxx of the path, whose letters are bytes.
    pub fn reference(self) -> Reference
        ensures { (result.0 ≡ link_of self) × (get_or self.letters 0 0 < 256) × (get_or self.letters 1 0 < 256) }
    {
        let a = self.letters[0];
        let b = self.letters[1];
        Reference::link(a, b)
    }
}

// A set, with its layout.
#[derive(Clone, Copy)]
pub struct Entry {
    pub name: u32, // the four characters
    pub kind: u8, // 1 master, 2 variable
    pub count: u8, // paths
    pub room: u16, // D, the data length
    pub records: u32, // R
    pub key: u8, // K, 0 for a variable
    pub edition: u8, // the schema's
    pub per: u16, // whole records to a block
    pub size: u32, // L, the record length
    pub body: u16, // where the D bytes stand in a record
    pub first: BlockNo,
    pub paths: [Path; 4],
}

#[derive(Clone, Copy)]
pub struct Schema {
    pub edition: u8, // byte 0
    pub masters: u8, // M
    pub variables: u8, // V
    pub blocks: u32, // T
    pub entries: [Entry; 8],
}

// Where a record lies: a part of the data base that starts in the middle of its block.
#[derive(Clone, Copy)]
pub struct Part {
    pub at: u32, // where it begins
    pub size: u16, // L, its length
}

// Records of a set that lie one behind the other in one block.
#[derive(Clone, Copy)]
pub struct Stretch {
    pub at: u32, // where the first begins
    pub count: u32, // how many there are
}
