// What a call stores: a plan, made while reading, from the data base as it came. The room `commit` stores all of it, or nothing.
#![tactic(auto)]

ghost use Rattle.std.specs.Prelude.{◌≡◌, ◌++◌, ◌∷◌, [], ◌<◌};
ghost use Rattle.plans.specs.Stores.{words_of, word_in};
ghost use Rattle.plans.specs.Made.{head_plan, with_word, with_wiped, body_plan};

use records::Link;
use schema::Part;
use terms::RecordNo;

// A linkage field of a record, and what it becomes. The record is a part of the data base.
#[derive(Clone, Copy)]
pub struct Word {
    pub at: u32, // where the record begins
    pub size: u16, // L, its length
    pub offset: u16, // where the field stands in it
    pub value: u32,
}

// What goes first: "moved record, then new record".
#[derive(Clone, Copy)]
pub enum Head {
    Nothing,
    // the D bytes of the area go into the target
    Body,
    // a new master
    Master,
    // a new variable record
    Variable,
    // the stranger in the target moves to the other record, and a new master takes its place
    Stranger,
    // the synonym in the other record moves into the target, its ROOT prior 0
    Synonym,
}

#[derive(Clone, Copy)]
pub struct Plan {
    pub head: Head,
    // the record that the head stores into, and the other one that it speaks of
    pub target: RecordNo,
    pub other: RecordNo,
    // the new record's neighbours, path by path; a master's ROOT neighbours come first
    pub links: [Link; 4],
    // then path by path prior's side and next's side
    pub words: [Word; 8],
    pub count: usize,
    // the record that is wiped in the end, 0 for none
    pub wiped: u32,
}

impl Word {
    // The field at `offset` of the record that is the part becomes `value`.
    pub fn of(part: Part, offset: u16, value: u32) -> Word
        ensures { result ≡ word_in part offset value }
    {
        Word {
            at: part.at,
            size: part.size,
            offset,
            value,
        }
    }
}

impl Plan {
    // Nothing but a head.
    pub fn of(head: Head, target: RecordNo, other: RecordNo, links: [Link; 4]) -> Plan
        ensures { result ≡ head_plan head target other links }
    {
        let words = [Word {
            at: 0,
            size: 0,
            offset: 0,
            value: 0,
        }; 8];
        Plan {
            head,
            target,
            other,
            links,
            words,
            count: 0,
            wiped: 0,
        }
    }

    // One more word, behind the others.
    pub fn with_word(self, w: Word) -> Plan
        requires { self.count < 8 }
        ensures value { result ≡ with_word self w }
        ensures result_value { words_of result ≡ words_of self ++ (w ∷ []) }
    {
        let mut p = self;
        let i = p.count;
        p.words[i] = w;
        p.count = i + 1;
        p
    }

    // And a record that is wiped in the end.
    pub fn with_wiped(self, r: RecordNo) -> Plan
        ensures { result ≡ with_wiped self r.0 }
    {
        let mut p = self;
        p.wiped = r.0;
        p
    }
}

// WRITM's and WRITV's plan: the D bytes of the area go into the record r.
pub fn body_plan(r: RecordNo) -> Plan
    ensures { result ≡ body_plan r }
{
    let none = [Link { prior: 0, next: 0 }; 4];
    Plan::of(Head::Body, r, RecordNo(0), none)
}
