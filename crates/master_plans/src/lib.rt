// Masters on the ROOT chains: the plans of ADD-M and DEL-M. All that is to be read and tested is read and tested here; what is to be stored
// goes into a plan, which another room commits.
#![tactic(auto)]

ghost use Rattle.std.specs.Prelude.{◌≡◌, cond, true, List, [], ◌++◌, ℕ, ◌+◌, ◌*◌, ◌≤◌, ◌<◌, length, IfOk};
ghost use Rattle.terms.specs.declared.Status.TheVariants.{Done, Damg};
ghost use Rattle.terms.specs.Status.{status_of};
ghost use Rattle.schema.specs.Decode.{entry_of};
ghost use Rattle.schema.specs.Place.{InSet};
ghost use Rattle.schema.specs.Guarantee.{SchemaOk};
ghost use Rattle.records.specs.Records.{root_next};
ghost use Rattle.plans.specs.declared.Head.TheVariants as head;
ghost use Rattle.plans.specs.PlanOk.{AreaOk};
ghost use Rattle.masters.specs.Find.{held_by_own, tail_from};
ghost use Rattle.masters.specs.Root.{bad_root, root_prior_side, root_next_side, add_for_stranger, add_master_stores, del_by_move, del_master_damaged, del_master_stores};
ghost use Rattle.points.specs.Chains.{has_points};
ghost use Rattle.master_plans.specs.Status.{add_master_status, del_master_status};
ghost use Rattle.master_plans.specs.Shape.{root_side, Shaped, OneLonger, StandsFor, stranger_damaged, beside_status, add_beside, empty_on, empty_in, LinkInside};

use masters::held::{Master, Masters};
use plans::{Head, Plan, Word};
use records::Link;
use records::held::Set;
use scan::lowest_free;
use schema::layout::{entry_of, part_of, path_of, sets};
use schema::{Entry, Path, Schema};
use terms::{EntryNo, RecordNo, Refusal};

// A plan with a head alone; `prior` is the new master's ROOT prior.
fn start(head: Head, target: RecordNo, other: RecordNo, prior: u32) -> Plan
    ensures { Shaped result 0 head target.0 other.0 prior [] 0 }
{
    let mut links = [Link { prior: 0, next: 0 }; 4];
    links[0] = Link { prior, next: 0 };
    Plan::of(head, target, other, links)
}

// One side of a place on the chain: the word at o of the record r becomes v. There is none where the pointer r is 0.
fn root_side(p: Plan, masters: &Masters, r: u32, o: u16, v: u32) -> Plan
    requires count_bound { p.count < 8 }
    requires r_le_records { r ≤ masters.now.entry.now.records }
    requires o_bound { o + 4 ≤ masters.now.entry.now.size }
    ensures { OneLonger p result (root_side masters.now.entry.now r o v) }
{
    if r == 0 {
        return p;
    }
    p.with_word(Word::of(part_of(*masters.entry, RecordNo(r)), o, v))
}

// "a neighbour pointer the call uses is not 0 and is above R, not live"
fn bad_root(masters: &Masters, p: u32) -> bool
    ensures { result ≡ bad_root masters.now.base.now masters.now.entry.now p }
{
    if p == 0 {
        return false;
    }
    if masters.entry.records < p {
        return true;
    }
    !masters.at(RecordNo(p)).record().is_live()
}

// ---- ADD-M

// "Home held by a record of that home: take the lowest-numbered free record, linked last."
fn synonym_plan(masters: &Masters, f: RecordNo, last: RecordNo) -> Plan
    requires in_set { InSet masters.now.entry.now last.0 }
    ensures { Shaped result 1 head.Master f.0 f.0 last.0 (root_prior_side masters.now.entry.now last.0 f.0) 0 }
{
    let p = start(Head::Master, f, f, last.0);
    root_side(p, masters, last.0, 4, f.0)
}

// "Home held by a stranger: the stranger moves to the lowest free record, its neighbours follow it, the new master takes the home."
fn stranger_plan(masters: &Masters, h: RecordNo, f: RecordNo, prior: u32, next: u32) -> Plan
    requires prior_le_records { prior ≤ masters.now.entry.now.records }
    requires next_le_records { next ≤ masters.now.entry.now.records }
    ensures { Shaped result 2 head.Stranger h.0 f.0 0 (root_prior_side masters.now.entry.now prior f.0 ++ root_next_side masters.now.entry.now next f.0) 0 }
{
    let p = start(Head::Stranger, h, f, 0);
    let q = root_side(p, masters, prior, 4, f.0);
    root_side(q, masters, next, 8, f.0)
}

// The home h is held by a stranger, and f is free.
fn add_for_stranger(masters: &Masters, h: RecordNo, f: RecordNo) -> Result<Plan, Refusal>
    requires in_set { InSet masters.now.entry.now h.0 }
    requires in_set_2 { InSet masters.now.entry.now f.0 }
    requires fact { h.0 ≡ f.0 → ⊥ }
    ensures status_value { status_of result ≡ cond (stranger_damaged masters.now.base.now masters.now.entry.now h.0) Damg Done }
    ensures stands_for { IfOk result (λ plan. StandsFor masters.now.base.now masters.now.entry.now plan (add_for_stranger masters.now.base.now masters.now.entry.now h.0 f.0)) }
{
    let record = masters.at(h).record();
    let prior = record.root_prior();
    let next = record.root_next();
    let before = bad_root(masters, prior);
    let after = bad_root(masters, next);
    if (prior == 0) | before | after {
        return Err(Refusal::Damg);
    }
    Ok(stranger_plan(masters, h, f, prior, next))
}

// The home h is live, and f is free: `last` is where the home's own chain ends.
fn add_beside(masters: &Masters, h: RecordNo, f: RecordNo, last: RecordNo) -> Result<Plan, Refusal>
    requires in_set { InSet masters.now.entry.now h.0 }
    requires in_set_2 { InSet masters.now.entry.now f.0 }
    requires fact { h.0 ≡ f.0 → ⊥ }
    requires in_set_3 { held_by_own masters.now.base.now masters.now.entry.now h.0 ≡ true → InSet masters.now.entry.now last.0 }
    ensures status_value { status_of result ≡ beside_status masters.now.base.now masters.now.entry.now h.0 }
    ensures stands_for { IfOk result (λ plan. StandsFor masters.now.base.now masters.now.entry.now plan (add_beside masters.now.base.now masters.now.entry.now h.0 f.0 last.0)) }
{
    if masters.at(h).is_at_home() {
        return Ok(synonym_plan(masters, f, last));
    }
    add_for_stranger(masters, h, f)
}

// ADD-M, when the key was looked for and is missing: h is its home, and `last` the record that a synonym is linked behind.
pub fn add_master(masters: &Masters, h: RecordNo, last: RecordNo) -> Result<Plan, Refusal>
    requires in_set { InSet masters.now.entry.now h.0 }
    requires last_value { held_by_own masters.now.base.now masters.now.entry.now h.0 ≡ true → (last.0 ≡ tail_from masters.now.entry.now.records masters.now.base.now masters.now.entry.now h.0) × InSet masters.now.entry.now last.0 }
    ensures status_value { status_of result ≡ add_master_status masters.now.base.now masters.now.entry.now h.0 }
    ensures stands_for { IfOk result (λ plan. StandsFor masters.now.base.now masters.now.entry.now plan (add_master_stores masters.now.base.now masters.now.entry.now h.0)) }
{
    if !masters.at(h).record().is_live() {
        return Ok(start(Head::Master, h, h, 0));
    }
    let free = lowest_free(&Set::of(masters.base, masters.entry)).ok_or(Refusal::Full)?;
    add_beside(masters, h, free, last)
}

// ---- DEL-M

// Does the path lead to another set than number n, or has the master, of that set, no point on it?
fn empty_on(master: &Master, n: EntryNo, p: Path) -> bool
    requires link_bound { p.master.0 ≡ n.0 → p.link + 8 ≤ master.now.entry.now.size }
    ensures { result ≡ empty_on master.now.base.now master.now.entry.now n.0 master.now.number.0 p }
{
    if p.master != n {
        return true;
    }
    let record = master.record();
    let first = record.first_on(p);
    let last = record.last_on(p);
    (first == 0) & (last == 0)
}

// The same of every path of the set x.
fn empty_in(master: &Master, n: EntryNo, x: Entry) -> bool
    requires count_bound { x.count ≤ 4 }
    requires link_inside { LinkInside master.now.entry.now n.0 x }
    ensures { result ≡ empty_in master.now.base.now master.now.entry.now n.0 master.now.number.0 x }
{
    for j in 0..usize::from(x.count) {
        if !empty_on(master, n, path_of(x, j)) {
            return false;
        }
    }
    true
}

// 14: "master has a first or last not 0", on any path to it, over all sets.
fn has_points(t: Schema, n: EntryNo, master: &Master) -> bool
    requires schema_ok { SchemaOk t }
    requires n_lt_masters { n.0 < t.masters }
    requires entry_value { master.now.entry.now ≡ entry_of t n.0 }
    ensures { result ≡ has_points t master.now.base.now n.0 master.now.number.0 }
{
    for i in 0..sets(t) {
        if !empty_in(master, n, entry_of(t, EntryNo(i))) {
            return true;
        }
    }
    false
}

// "that synonym moves into the home, its ROOT prior 0, and its old place is wiped": `next` is the synonym's ROOT next.
fn move_plan(masters: &Masters, h: RecordNo, s: RecordNo, next: u32) -> Plan
    requires next_le_records { next ≤ masters.now.entry.now.records }
    ensures { Shaped result 1 head.Synonym h.0 s.0 0 (root_next_side masters.now.entry.now next h.0) s.0 }
{
    let p = start(Head::Synonym, h, s, 0);
    let q = root_side(p, masters, next, 8, h.0);
    q.with_wiped(s)
}

// "Otherwise unlink and wipe."
fn unlink_plan(masters: &Masters, r: RecordNo, prior: u32, next: u32) -> Plan
    requires prior_le_records { prior ≤ masters.now.entry.now.records }
    requires next_le_records { next ≤ masters.now.entry.now.records }
    ensures { Shaped result 2 head.Nothing r.0 r.0 0 (root_prior_side masters.now.entry.now prior next ++ root_next_side masters.now.entry.now next prior) r.0 }
{
    let p = start(Head::Nothing, r, r, 0);
    let q = root_side(p, masters, prior, 4, next);
    let w = root_side(q, masters, next, 8, prior);
    w.with_wiped(r)
}

// The synonym s moves into the home h. No plan of DEL-M takes a byte of the area.
fn del_by_move(masters: &Masters, h: RecordNo, s: RecordNo) -> Result<Plan, Refusal>
    requires in_set { InSet masters.now.entry.now h.0 }
    requires in_set_2 { InSet masters.now.entry.now s.0 }
    ensures status_value { status_of result ≡ cond (bad_root masters.now.base.now masters.now.entry.now (root_next masters.now.base.now masters.now.entry.now s.0)) Damg Done }
    ensures stands_for { IfOk result (λ plan. StandsFor masters.now.base.now masters.now.entry.now plan (λ _. del_by_move masters.now.base.now masters.now.entry.now h.0 s.0)) }
    ensures area_ok { IfOk result (λ plan. (area : List ℕ) → AreaOk plan.head masters.now.entry.now area) }
{
    let next = masters.at(s).record().root_next();
    if bad_root(masters, next) {
        return Err(Refusal::Damg);
    }
    Ok(move_plan(masters, h, s, next))
}

// The final 16, and the plan.
fn del_unpointed(masters: &Masters, h: RecordNo, r: RecordNo) -> Result<Plan, Refusal>
    requires in_set { InSet masters.now.entry.now h.0 }
    requires in_set_2 { InSet masters.now.entry.now r.0 }
    ensures status_value { status_of result ≡ cond (del_master_damaged masters.now.base.now masters.now.entry.now h.0 r.0) Damg Done }
    ensures stands_for { IfOk result (λ plan. StandsFor masters.now.base.now masters.now.entry.now plan (λ _. del_master_stores masters.now.base.now masters.now.entry.now h.0 r.0)) }
    ensures area_ok { IfOk result (λ plan. (area : List ℕ) → AreaOk plan.head masters.now.entry.now area) }
{
    let record = masters.at(r).record();
    let prior = record.root_prior();
    let next = record.root_next();
    let before = bad_root(masters, prior);
    let after = bad_root(masters, next);
    if ((r != h) & (prior == 0)) | before | after {
        return Err(Refusal::Damg);
    }
    if (r == h) & (next != 0) {
        return del_by_move(masters, h, RecordNo(next));
    }
    Ok(unlink_plan(masters, r, prior, next))
}

// DEL-M of the record r, number n of the schema's sets, that the search found for a key whose home is h.
pub fn del_master(
    t: Schema,
    n: EntryNo,
    masters: &Masters,
    h: RecordNo,
    r: RecordNo,
) -> Result<Plan, Refusal>
    requires schema_ok { SchemaOk t }
    requires n_lt_masters { n.0 < t.masters }
    requires entry_value { masters.now.entry.now ≡ entry_of t n.0 }
    requires in_set { InSet masters.now.entry.now h.0 }
    requires in_set_2 { InSet masters.now.entry.now r.0 }
    ensures status_value { status_of result ≡ del_master_status t masters.now.base.now n.0 masters.now.entry.now h.0 r.0 }
    ensures stands_for { IfOk result (λ plan. StandsFor masters.now.base.now masters.now.entry.now plan (λ _. del_master_stores masters.now.base.now masters.now.entry.now h.0 r.0)) }
    ensures area_ok { IfOk result (λ plan. (area : List ℕ) → AreaOk plan.head masters.now.entry.now area) }
{
    if has_points(t, n, &masters.at(r)) {
        return Err(Refusal::Imdl);
    }
    del_unpointed(masters, h, r)
}
