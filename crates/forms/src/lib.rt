// The tests of a call's parameters: the length of its area, the control key, the keys of the area, the form of the reference.
#![tactic(auto)]

ghost use Rattle.std.specs.Prelude.{◌≡◌, false, true, ◌&&◌, ◌||◌, ◌<◌, ◌≤◌, length};
ghost use Rattle.octets.specs.Octets.{all_blank};
ghost use Rattle.terms.specs.Terms.{key_of};
ghost use Rattle.terms.specs.Status.{status_of};
ghost use Rattle.records.specs.Areas.{is_master, area_length};
ghost use Rattle.records.specs.Fields.{Fields};
ghost use Rattle.calls.specs.Ladder.{blank_area_key, other_area_key, other_stored_key};
ghost use Rattle.forms.specs.Form.{rungs_of, form_status, decided, wrong_reference, same_stored};

use areas::given::Area;
use records::held::Record;
use schema::Entry;
use schema::layout::path_of;
use terms::{Key, Operation, Reference, Refusal};

// Which tests of its parameters an operation has.
#[derive(Clone, Copy)]
pub struct Rungs {
    pub area: bool, // the area has the set's length
    pub key: bool, // the control key has its length and is not blank
    pub blank: bool, // no key of the area is blank
    pub same: bool, // the area's key is the control key
    pub link: bool, // the reference is the path's LKxx or a record number
    pub sweep: bool, // the reference is 0 or a record number
    pub last: bool, // the reference is not END.
    pub number: bool, // the reference is a record number
}

// A row of the table below.
fn row(
    area: bool,
    key: bool,
    blank: bool,
    same: bool,
    link: bool,
    sweep: bool,
    last: bool,
    number: bool,
) -> Rungs
    ensures { result ≡ record { area = area; key = key; blank = blank; same = same; link = link; sweep = sweep; last = last; number = number } }
{
    Rungs {
        area: area,
        key: key,
        blank: blank,
        same: same,
        link: link,
        sweep: sweep,
        last: last,
        number: number,
    }
}

impl From<Operation> for Rungs {
    ghost from_gives = { λ o q. q ≡ rungs_of o };

    // The tests of an operation: area, key, blank, same, link, sweep, last, number.
    fn from(o: Operation) -> Rungs {
        match o {
            Operation::Formt => row(false, false, false, false, false, false, false, false),
            Operation::Sinon => row(false, false, false, false, false, false, false, false),
            Operation::AddM => row(true, true, true, true, false, false, false, false),
            Operation::DelM => row(false, true, false, false, false, false, false, false),
            Operation::Readm => row(true, true, false, false, false, false, false, false),
            Operation::Writm => row(true, true, false, true, false, false, false, false),
            Operation::Rqloc => row(false, true, false, false, false, false, false, false),
            Operation::Rdnxt => row(true, false, false, false, false, true, false, false),
            Operation::Readv => row(true, true, false, false, true, false, false, false),
            Operation::Readr => row(true, true, false, false, true, false, false, false),
            Operation::Readd => row(true, true, false, false, false, false, false, true),
            Operation::Writv => row(true, true, false, false, false, false, false, true),
            Operation::Addvc => row(true, true, true, true, false, false, true, false),
            Operation::Addvb => row(true, true, true, true, false, false, false, true),
            Operation::Addva => row(true, true, true, true, false, false, false, true),
            Operation::Delvd => row(false, true, false, false, false, false, false, true),
            Operation::Unknown => row(true, true, false, false, false, false, false, false),
        }
    }
}

// Is the key of some path blank in a variable set's area?
fn blank_path_key(area: &Area) -> bool
    requires { is_master area.now.entry.now ≡ false }
    ensures { result ≡ blank_area_key area.now.entry.now area.now.bytes.now }
{
    (0..usize::from(area.entry.count)).any(|j| Key::of(area.key_on(j)).is_blank())
}

// 9: "for any area key of ADD-M or an add".
fn blank_area_key(area: &Area) -> bool
    ensures { result ≡ blank_area_key area.now.entry.now area.now.bytes.now }
{
    if area.entry.kind == 1 {
        return Key::of(area.master_key()).is_blank();
    }
    blank_path_key(area)
}

// 10: "ADD-M, WRITM, and for adds the named path's key" differs from the control key.
fn other_area_key(area: &Area, on: usize, control: Key) -> bool
    requires len_bound { control.len ≤ 16 }
    requires on_lt_count { is_master area.now.entry.now ≡ false → on < area.now.entry.now.count }
    ensures { result ≡ other_area_key area.now.entry.now on (key_of control) area.now.bytes.now }
{
    let key = if area.entry.kind == 1 {
        area.master_key()
    } else {
        area.key_on(on)
    };
    !Key::of(key).same(control)
}

// 11: has the reference a form that the call does not take?
fn wrong_reference(q: Rungs, e: Entry, link: u32, reference: u32) -> bool
    ensures { result ≡ wrong_reference q e link reference }
{
    let low = reference <= e.records;
    let number = (1 <= reference) & low;
    let a = q.link & !((reference == link) | number);
    let b = q.sweep & !low;
    let c = q.last & (Reference(reference) == Reference::END);
    let d = q.number & !number;
    a | (b | (c | d))
}

// The first test that refuses decides.
fn decide(control: bool, blank: bool, other: bool, reference: bool) -> Result<(), Refusal>
    ensures { status_of result ≡ decided control blank other reference }
{
    if control {
        return Err(Refusal::Bctl);
    }
    if blank {
        return Err(Refusal::Bctl);
    }
    if other {
        return Err(Refusal::Keys);
    }
    if reference {
        return Err(Refusal::Ivrp);
    }
    Ok(())
}

// The tests 9 to 11 of a call whose control key and area have their lengths; `wrong` is test 11's answer.
fn key_status(q: Rungs, on: usize, control: Key, area: &Area, wrong: bool) -> Result<(), Refusal>
    requires len_bound { control.len ≤ 16 }
    requires on_lt_count { is_master area.now.entry.now ≡ false → q.same ≡ true → on < area.now.entry.now.count }
    ensures { status_of result ≡ decided (all_blank (key_of control)) (q.blank && blank_area_key area.now.entry.now area.now.bytes.now) (q.same && other_area_key area.now.entry.now on (key_of control) area.now.bytes.now) wrong }
{
    let blank = q.blank && blank_area_key(area);
    let other = q.same && other_area_key(area, on, control);
    decide(control.is_blank(), blank, other, wrong)
}

// The tests 7 to 11 of a call on the set e: `on` is the named path's number and `link` its LKxx, `k` the length of the control key.
// The control key becomes a key once it has its length, and the bytes of the area an area once they have theirs: who asks for its keys has
// asked for its length.
pub fn form_status(
    o: Operation,
    e: Entry,
    on: usize,
    link: u32,
    k: u8,
    reference: u32,
    key: &[u8],
    area: &[u8],
) -> Result<(), Refusal>
    requires fields { Fields e }
    requires on_lt_count { is_master e ≡ false → (rungs_of o).same ≡ true → on < e.count }
    requires k_bound { k ≤ 16 }
    ensures { status_of result ≡ form_status o e on link k reference key.now area.now }
{
    let q = Rungs::from(o);
    let fitting = Area::fitting(area, &e);
    if q.area & fitting.is_none() {
        return Err(Refusal::Area);
    }
    let wrong = wrong_reference(q, e, link, reference);
    if !q.key {
        return decide(false, false, false, wrong);
    }
    if key.len() != usize::from(k) {
        return Err(Refusal::Klen);
    }
    let control = Key::of(key);
    let Some(area) = fitting else {
        return decide(control.is_blank(), false, false, wrong);
    };
    key_status(q, on, control, &area, wrong)
}

// Is the area's key on path j the stored one?
fn same_stored_key(record: &Record, area: &Area, j: usize) -> bool
    requires entry { record.now.entry.now ≡ area.now.entry.now }
    requires among { (is_master area.now.entry.now ≡ false) × (j < area.now.entry.now.count) }
    ensures { result ≡ same_stored record.now.base.now area.now.entry.now record.now.number.0 area.now.bytes.now j }
{
    let p = path_of(*area.entry, j);
    record.key_is(usize::from(p.at), Key::of(area.key_on(j)))
}

// "10 for WRITV if an area key differs from the stored one"
pub fn other_stored_key(record: &Record, area: &[u8]) -> bool
    requires fields { Fields record.now.entry.now }
    requires e_value { is_master record.now.entry.now ≡ false }
    requires area_len { length area.now ≡ area_length record.now.entry.now }
    ensures { result ≡ other_stored_key record.now.base.now record.now.entry.now record.now.number.0 area.now }
{
    let given = Area::of(area, record.entry);
    (0..usize::from(record.entry.count)).any(|j| !same_stored_key(record, &given, j))
}
