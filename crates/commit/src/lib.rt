// The commit: everything that a plan stands for is stored, or nothing is. The blocks that it stores into are listed first, each once; where
// all their checks are true, the stores are made, and then the checks set.
#![tactic(auto)]

ghost use Rattle.std.specs.Prelude.{◌≡◌, cond, [], ◌+◌, ◌≤◌, ◌<◌, length};
ghost use Rattle.octets.specs.Octets.{splice, set_word};
ghost use Rattle.blocks.specs.Blocks.{check_by};
ghost use Rattle.schema.specs.Place.{InSet, LiesIn, place_of, record_of};
ghost use Rattle.records.specs.Fields.{Fields};
ghost use Rattle.records.specs.Areas.{new_master};
ghost use Rattle.plans.specs.Plan.{blocks_sealed, store_all, committed};
ghost use Rattle.plans.specs.PlanOk.{HeadOk, AreaOk, PlanOk, AllFit, WordsOk};
ghost use Rattle.plans.specs.Stores.{word_stores, head_stores, wiped_stores, plan_stores};
ghost use Rattle.commit.specs.Touched.{add_new, add_all, distinct, bare_numbers, numbers_of, AllWithin, all_sealed, seal_each, word_blocks, head_blocks, wiped_blocks, plan_blocks};

use areas::given::Area;
use areas::{put_body, put_master, put_variable};
use blocks::{Check, block_with};
use plans::{Head, Plan, Word};
use records::Link;
use records::fields::{move_record, put_word_in, wipe};
use schema::Entry;
use schema::layout::block_of;
use terms::{BlockNo, RecordNo};

// Numbers of blocks, each once: the first `count` of the array. A plan has at most eleven stores: two of its head, eight words and a wiped
// record; there is always room for one more. (kept: the kit's `ArrayVec` would bring a crate for one buffer.)
#[derive(Clone, Copy)]
struct Blocks {
    numbers: [BlockNo; 12],
    count: usize,
}

impl Blocks {
    fn none() -> Blocks
        ensures { (numbers_of result ≡ []) × (result.count ≡ 0) }
    {
        Blocks {
            numbers: [BlockNo(0); 12],
            count: 0,
        }
    }

    fn as_slice(&self) -> &[BlockNo]
        requires { self.now.count ≤ 12 }
        ensures { bare_numbers result.now ≡ numbers_of self.now }
    {
        &self.numbers[..self.count]
    }

    // And this block, unless it is one of them.
    fn with(self, n: BlockNo) -> Blocks
        requires { self.count < 12 }
        ensures { (numbers_of result ≡ add_new (numbers_of self) n.0) × (result.count ≤ self.count + 1) }
    {
        if self.as_slice().contains(&n) {
            return self;
        }
        let mut s = self;
        s.numbers[s.count] = n;
        s.count += 1;
        s
    }
}

// The blocks of the records that a head stores into: r and q are the plan's target and its other record.
fn head_blocks(e: Entry, head: Head, r: RecordNo, q: RecordNo) -> Blocks
    requires lies_in { LiesIn e 2097152 }
    requires head_ok { HeadOk head e r.0 q.0 }
    ensures { (numbers_of result ≡ distinct (head_blocks head e r.0 q.0)) × (result.count ≤ 2) }
{
    let none = Blocks::none();
    match head {
        Head::Nothing => none,
        Head::Body | Head::Master | Head::Variable | Head::Synonym => none.with(block_of(e, r)),
        Head::Stranger => none.with(block_of(e, q)).with(block_of(e, r)),
    }
}

// And those of the plan's words.
fn word_blocks(blocks: Blocks, words: &[Word]) -> Blocks
    requires { (length words.now ≤ 8) × (blocks.count ≤ 2) }
    ensures { (numbers_of result ≡ add_all (numbers_of blocks) (word_blocks words.now)) × (result.count ≤ 10) }
{
    let mut s = blocks;
    for w in words {
        s = s.with(block_with(w.at));
    }
    s
}

// And that of the record that is wiped.
fn wiped_block(blocks: Blocks, e: Entry, r: u32) -> Blocks
    requires lies_in { LiesIn e 2097152 }
    requires r_le_records { (r ≤ e.records) × (blocks.count ≤ 10) }
    ensures { (numbers_of result ≡ add_all (numbers_of blocks) (wiped_blocks e r)) × (result.count ≤ 11) }
{
    if r == 0 {
        return blocks;
    }
    blocks.with(block_of(e, RecordNo(r)))
}

// The blocks that the plan's stores go into.
fn touched(e: Entry, p: &Plan) -> Blocks
    requires lies_in { LiesIn e 2097152 }
    requires head_ok { HeadOk p.now.head e p.now.target.0 p.now.other.0 }
    requires count_bound { (p.now.count ≤ 8) × (p.now.wiped ≤ e.records) }
    ensures { (numbers_of result ≡ distinct (plan_blocks e p.now)) × (result.count ≤ 11) }
{
    let heads = head_blocks(e, p.head, p.target, p.other);
    let words = word_blocks(heads, &p.words[..p.count]);
    wiped_block(words, e, p.wiped)
}

// Are all their checks true?
fn all_sealed(base: &[u8], blocks: &[BlockNo], kind: Check) -> bool
    requires { AllWithin (length base.now) (bare_numbers blocks.now) }
    ensures { result ≡ all_sealed kind base.now (bare_numbers blocks.now) }
{
    blocks.iter().all(|&n| blocks::sealed(base, n, kind))
}

// Sets their checks.
fn seal_all(base: &mut [u8], blocks: &[BlockNo], kind: Check)
    requires { AllWithin (length base.old) (bare_numbers blocks.now) }
    ensures { base.new ≡ seal_each kind base.old (bare_numbers blocks.now) }
{
    for &n in blocks {
        blocks::seal(base, n, kind);
    }
}

// Stores all the bytes of one record over another; where the two are one, they stand there.
fn move_into(base: &mut [u8], e: Entry, from: RecordNo, to: RecordNo)
    requires in_set { InSet e from.0 }
    requires in_set_2 { InSet e to.0 }
    requires lies_in { LiesIn e (length base.old) }
    ensures { base.new ≡ splice base.old (place_of e to.0) (record_of base.old e from.0) }
{
    if from.0 == to.0 {
        return;
    }
    move_record(base, e, from, to);
}

// The synonym in q moves into r: it is the first of its chain now, so its ROOT prior, at 8, is 0.
fn put_synonym(base: &mut [u8], e: Entry, r: RecordNo, q: RecordNo)
    requires in_set { InSet e r.0 }
    requires in_set_2 { InSet e q.0 }
    requires lies_in { LiesIn e (length base.old) }
    requires le_size { 12 ≤ e.size }
    ensures { base.new ≡ splice base.old (place_of e r.0) (set_word (record_of base.old e q.0) 8 0) }
{
    move_into(base, e, q, r);
    put_word_in(base, e, r, 8, 0);
}

// The stranger in r moves to q, and a new master takes its place.
fn put_stranger(base: &mut [u8], r: RecordNo, q: RecordNo, root: Link, area: &Area)
    requires in_set { InSet area.now.entry.now r.0 × InSet area.now.entry.now q.0 × (r.0 ≡ q.0 → ⊥) }
    requires lies_in { LiesIn area.now.entry.now (length base.old) }
    requires kind_value { area.now.entry.now.kind ≡ 1 }
    ensures { base.new ≡ splice (splice base.old (place_of area.now.entry.now q.0) (record_of base.old area.now.entry.now r.0)) (place_of area.now.entry.now r.0) (new_master area.now.entry.now root area.now.bytes.now) }
{
    move_record(base, *area.entry, r, q);
    put_master(base, r, root, area);
}

// What goes first. Only a head that takes bytes from the area asks for its length.
fn store_head(base: &mut [u8], e: Entry, area: &[u8], p: &Plan)
    requires lies_in { LiesIn e (length base.old) }
    requires fields { Fields e }
    requires head_ok { HeadOk p.now.head e p.now.target.0 p.now.other.0 }
    requires area_ok { AreaOk p.now.head e area.now }
    ensures { base.new ≡ store_all base.old (head_stores p.now.head base.old e area.now p.now.target.0 p.now.other.0 p.now.links) }
{
    match p.head {
        Head::Nothing => {}
        Head::Body => put_body(base, p.target, &Area::of(area, &e)),
        Head::Master => put_master(base, p.target, p.links[0], &Area::of(area, &e)),
        Head::Variable => put_variable(base, p.target, p.links, &Area::of(area, &e)),
        Head::Stranger => put_stranger(base, p.target, p.other, p.links[0], &Area::of(area, &e)),
        Head::Synonym => put_synonym(base, e, p.target, p.other),
    }
}

// A word is stored into its record's part.
fn put_in(base: &mut [u8], w: Word)
    requires { (w.offset + 4 ≤ w.size) × (w.at + w.size ≤ length base.old) }
    ensures { base.new ≡ set_word base.old (w.at + w.offset) w.value }
{
    let at = w.at as usize;
    let end = at + (w.size as usize);
    octets::put_word(&mut base[at..end], w.offset as usize, w.value);
}

// Then the words, one after the other.
fn store_words(base: &mut [u8], words: &[Word])
    requires all_fit { AllFit (length base.old) (word_stores words.now) }
    requires words_ok { WordsOk words.now }
    ensures { base.new ≡ store_all base.old (word_stores words.now) }
{
    for &w in words {
        put_in(base, w);
    }
}

// Then the record that is wiped, if there is one.
fn store_wiped(base: &mut [u8], e: Entry, r: u32)
    requires lies_in { LiesIn e (length base.old) }
    requires r_le_records { r ≤ e.records }
    ensures { base.new ≡ store_all base.old (wiped_stores e r) }
{
    if r == 0 {
        return;
    }
    wipe(base, e, RecordNo(r));
}

// "Stores go: moved record, then new record; then path by path (ROOT as one path) prior's side, next's side; then wiping"
fn store(base: &mut [u8], e: Entry, area: &[u8], p: &Plan)
    requires lies_in { LiesIn e (length base.old) }
    requires fields { Fields e }
    requires plan_ok { PlanOk (length base.old) e p.now }
    requires area_ok { AreaOk p.now.head e area.now }
    ensures { base.new ≡ store_all base.old (plan_stores base.old e area.now p.now) }
{
    store_head(base, e, area, p);
    store_words(base, &p.words[..p.count]);
    store_wiped(base, e, p.wiped);
}

// Stores what the plan stands for, and "then the checks of the blocks stored into". Where one of these is false as the data base comes,
// nothing is stored, and the answer is false.
pub fn commit(base: &mut [u8], e: Entry, area: &[u8], p: Plan) -> bool
    requires lies_in { LiesIn e (length base.old) }
    requires fields { Fields e }
    requires plan_ok { PlanOk (length base.old) e p }
    requires area_ok { AreaOk p.head e area.now }
    ensures value { result ≡ blocks_sealed (check_by e.edition) base.old (plan_stores base.old e area.now p) }
    ensures base_after { base.new ≡ cond (blocks_sealed (check_by e.edition) base.old (plan_stores base.old e area.now p)) (committed (check_by e.edition) base.old (plan_stores base.old e area.now p)) base.old }
{
    let kind = Check::from(e.edition);
    let blocks = touched(e, &p);
    if !all_sealed(base, blocks.as_slice(), kind) {
        return false;
    }
    store(base, e, area, &p);
    seal_all(base, blocks.as_slice(), kind);
    true
}
