// The words of document 01: numbers that are counted apart, the key, the reference, the status and the operation.
#![tactic(auto)]

ghost use Rattle.std.specs.Prelude.{◌≡◌, ◌+◌, ◌*◌, ◌≤◌, ◌<◌, length};
ghost use Rattle.octets.specs.Octets.{same_bytes, word_sum, all_blank, run};
ghost use Rattle.terms.specs.Terms.{key_of, key_from, end_ref, link_ref, home_of};
ghost use Rattle.terms.specs.Status.{status_number, status_code, status_by};
ghost use Rattle.terms.specs.Operation.{operation_of};

// "Record numbers, block numbers and schema entry numbers are counted apart."
#[derive(Clone, Copy, PartialEq, Eq)]
pub struct RecordNo(pub u32);

#[derive(Clone, Copy, PartialEq, Eq)]
pub struct BlockNo(pub u32);

#[derive(Clone, Copy, PartialEq, Eq)]
pub struct EntryNo(pub u8);

// A key is its first `len` bytes; document 01's lengths are 4, 8, 12 and 16.
#[derive(Clone, Copy)]
pub struct Key {
    pub bytes: [u8; 16],
    pub len: usize,
}

#[derive(Clone, Copy, PartialEq, Eq)]
pub struct Reference(pub u32);

// What a call answers.
#[derive(Clone, Copy, PartialEq, Eq)]
pub enum Status {
    Done,
    Schm,
    Size,
    Func,
    Fntf,
    Kind,
    Path,
    Area,
    Klen,
    Bctl,
    Keys,
    Ivrp,
    Mrnf,
    Dupm,
    Imdl,
    Full,
    Damg,
}

// Why a call is refused: every status but Done.
#[derive(Clone, Copy, PartialEq, Eq)]
pub enum Refusal {
    Schm,
    Size,
    Func,
    Fntf,
    Kind,
    Path,
    Area,
    Klen,
    Bctl,
    Keys,
    Ivrp,
    Mrnf,
    Dupm,
    Imdl,
    Full,
    Damg,
}

// The sixteen calls, and what is none of them.
#[derive(Clone, Copy, PartialEq, Eq)]
pub enum Operation {
    Formt,
    Sinon,
    AddM,
    DelM,
    Readm,
    Writm,
    Rqloc,
    Rdnxt,
    Readv,
    Readr,
    Readd,
    Writv,
    Addvc,
    Addvb,
    Addva,
    Delvd,
    Unknown,
}

impl Key {
    // The key that is all of s.
    pub fn of(s: &[u8]) -> Key
        requires { length s.now ≤ 16 }
        ensures { (key_of result ≡ s.now) × (result.len ≡ length s.now) × (result ≡ key_from s.now) }
    {
        let mut bytes = [0; 16];
        octets::copy_in(&mut bytes, 0, s);
        Key {
            bytes,
            len: s.len(),
        }
    }

    // The key that is the `len` bytes of s from `at` on.
    pub fn part(s: &[u8], at: usize, len: usize) -> Key
        requires { (len ≤ 16) × (at + len ≤ length s.now) }
        ensures { (key_of result ≡ run s.now at len) × (result.len ≡ len) × (result ≡ key_from (run s.now at len)) }
    {
        Key::of(&s[at..at + len])
    }

    // The key's own bytes.
    fn as_bytes(&self) -> &[u8]
        requires { self.now.len ≤ 16 }
        ensures { result.now ≡ key_of self.now }
    {
        &self.bytes[..self.len]
    }

    // The wrapping sum of the key's words.
    pub fn sum(self) -> u32
        requires { self.len ≤ 16 }
        ensures { result ≡ word_sum (key_of self) }
    {
        octets::word_sum(self.as_bytes(), 0)
    }

    // Are the two keys the same, in length too? kept: `==` may ask nothing of its two sides, and this asks for their lengths.
    pub fn same(self, other: Key) -> bool
        requires { (self.len ≤ 16) × (other.len ≤ 16) }
        ensures { result ≡ same_bytes (key_of self) (key_of other) }
    {
        octets::same(self.as_bytes(), other.as_bytes())
    }

    // Does the key stand at `at` of s?
    pub fn at(self, s: &[u8], at: usize) -> bool
        requires { (self.len ≤ 16) × (at + self.len ≤ length s.now) }
        ensures { result ≡ same_bytes (key_of self) (run s.now at self.len) }
    {
        octets::same(self.as_bytes(), &s[at..at + self.len])
    }

    // Is every byte of the key a blank?
    pub fn is_blank(self) -> bool
        requires { self.len ≤ 16 }
        ensures { result ≡ all_blank (key_of self) }
    {
        octets::all(self.as_bytes(), b' ')
    }

    // The record that the key's master lives in, or its chain of synonyms begins at, in a set of `records`.
    pub fn home(self, records: u32) -> RecordNo
        requires { (self.len ≤ 16) × (1 ≤ records) }
        ensures { result.0 ≡ home_of records (key_of self) }
    {
        RecordNo(1 + self.sum() % records)
    }
}

impl Reference {
    pub const END: Reference = Reference(0x454E442E);

    // LKxx: the path with the letters a and b, from its beginning or end. The letters are bytes, so no two pairs make the same word.
    pub fn link(a: u8, b: u8) -> Reference
        ensures { (result.0 ≡ link_ref a b) × (a < 256) × (b < 256) }
    {
        Reference(u32::from_be_bytes([b'L', b'K', a, b]))
    }
}

impl From<RecordNo> for Reference {
    ghost from_gives = { λ n r. r.0 ≡ n.0 };

    // A record of the set.
    fn from(n: RecordNo) -> Reference {
        Reference(n.0)
    }
}

impl From<Refusal> for Status {
    ghost from_gives = { λ why s. s ≡ status_by why };

    fn from(why: Refusal) -> Status {
        match why {
            Refusal::Schm => Status::Schm,
            Refusal::Size => Status::Size,
            Refusal::Func => Status::Func,
            Refusal::Fntf => Status::Fntf,
            Refusal::Kind => Status::Kind,
            Refusal::Path => Status::Path,
            Refusal::Area => Status::Area,
            Refusal::Klen => Status::Klen,
            Refusal::Bctl => Status::Bctl,
            Refusal::Keys => Status::Keys,
            Refusal::Ivrp => Status::Ivrp,
            Refusal::Mrnf => Status::Mrnf,
            Refusal::Dupm => Status::Dupm,
            Refusal::Imdl => Status::Imdl,
            Refusal::Full => Status::Full,
            Refusal::Damg => Status::Damg,
        }
    }
}

impl From<Status> for u32 {
    ghost from_gives = { λ s n. n ≡ status_number s };

    // The number that C and the tests know the status by.
    fn from(s: Status) -> u32 {
        match s {
            Status::Done => 0,
            Status::Schm => 1,
            Status::Size => 2,
            Status::Func => 3,
            Status::Fntf => 4,
            Status::Kind => 5,
            Status::Path => 6,
            Status::Area => 7,
            Status::Klen => 8,
            Status::Bctl => 9,
            Status::Keys => 10,
            Status::Ivrp => 11,
            Status::Mrnf => 12,
            Status::Dupm => 13,
            Status::Imdl => 14,
            Status::Full => 15,
            Status::Damg => 16,
        }
    }
}

impl Status {
    // The four characters that are printed.
    pub fn code(self) -> [u8; 4]
        ensures { result ≡ status_code self }
    {
        match self {
            Status::Done => *b"****",
            Status::Schm => *b"SCHM",
            Status::Size => *b"SIZE",
            Status::Func => *b"FUNC",
            Status::Fntf => *b"FNTF",
            Status::Kind => *b"KIND",
            Status::Path => *b"PATH",
            Status::Area => *b"AREA",
            Status::Klen => *b"KLEN",
            Status::Bctl => *b"BCTL",
            Status::Keys => *b"KEYS",
            Status::Ivrp => *b"IVRP",
            Status::Mrnf => *b"MRNF",
            Status::Dupm => *b"DUPM",
            Status::Imdl => *b"IMDL",
            Status::Full => *b"FULL",
            Status::Damg => *b"DAMG",
        }
    }
}

impl From<&[u8; 5]> for Operation {
    ghost from_gives = { λ op call. call ≡ operation_of op.now };

    // The call that the five bytes ask for.
    #[tactic(auto, using(crate::specs::Laws::operation_of_letters, std::proofs::lemmas::Bool::Decides::nat_tests))]
    fn from(op: &[u8; 5]) -> Operation {
        match op {
            b"FORMT" => Operation::Formt,
            b"SINON" => Operation::Sinon,
            b"ADD-M" => Operation::AddM,
            b"DEL-M" => Operation::DelM,
            b"READM" => Operation::Readm,
            b"WRITM" => Operation::Writm,
            b"RQLOC" => Operation::Rqloc,
            b"RDNXT" => Operation::Rdnxt,
            b"READV" => Operation::Readv,
            b"READR" => Operation::Readr,
            b"READD" => Operation::Readd,
            b"WRITV" => Operation::Writv,
            b"ADDVC" => Operation::Addvc,
            b"ADDVB" => Operation::Addvb,
            b"ADDVA" => Operation::Addva,
            b"DELVD" => Operation::Delvd,
            _ => Operation::Unknown,
        }
    }
}
