// "path by path prior's side, next's side": the words that a plan stores when a record is linked or unlinked. They are made of numbers and
// parts alone: no data base is read.
ghost use Rattle.std.specs.Prelude.{◌≡◌, ◌+◌, ◌*◌, ◌≤◌};
ghost use Rattle.schema.specs.Place.{InSet, LiesIn};
ghost use Rattle.point_plans.specs.Paths.{prior_word, next_word, side_words, words_below};
ghost use Rattle.point_plans.specs.Within.{OwnersIn, LinkIn, LinksIn};
ghost use Rattle.records.specs.InBase.{PathIn, PointsIn};
ghost use Rattle.point_plans.specs.Plans.{Longer};

use plans::{Plan, Word};
use records::Link;
use schema::layout::{part_of, path_of};
use schema::{Entry, Part, Path};
use terms::RecordNo;

// Prior's side: what points forward to a record, next of the record before it or the master's first, becomes v.
fn prior_word(e: &Entry, p: Path, owner: Part, prior: u32, v: u32) -> Word
    requires lies_in { LiesIn e.now 2097152 }
    requires path_in { PathIn e.now p }
    requires in_set { (prior ≡ 0 → ⊥) → InSet e.now prior }
    ensures { result ≡ prior_word e.now p owner prior v }
{
    if prior == 0 {
        return Word::of(owner, p.link, v);
    }
    Word::of(part_of(*e, RecordNo(prior)), p.at + p.len as u16 + 4, v)
}

// Next's side: what points back to a record, prior of the record after it or the master's last, becomes v.
fn next_word(e: &Entry, p: Path, owner: Part, next: u32, v: u32) -> Word
    requires lies_in { LiesIn e.now 2097152 }
    requires path_in { PathIn e.now p }
    requires link_bound { p.link + 8 ≤ owner.size }
    requires in_set { (next ≡ 0 → ⊥) → InSet e.now next }
    ensures { result ≡ next_word e.now p owner next v }
{
    if next == 0 {
        return Word::of(owner, p.link + 4, v);
    }
    Word::of(part_of(*e, RecordNo(next)), p.at + p.len as u16, v)
}

// One path's two words: what points forward to the record becomes `value.next`, what points back to it `value.prior`.
fn with_path(plan: Plan, e: &Entry, p: Path, owner: Part, link: Link, value: Link) -> Plan
    requires count_bound { plan.count + 2 ≤ 8 }
    requires lies_in { LiesIn e.now 2097152 }
    requires path_in { PathIn e.now p }
    requires link_bound { p.link + 8 ≤ owner.size }
    requires link_in { LinkIn e.now link }
    ensures { Longer plan result (plan.count + 2) (side_words e.now p owner link value) }
{
    let forward = prior_word(e, p, owner, link.prior, value.next);
    let back = next_word(e, p, owner, link.next, value.prior);
    plan.with_word(forward).with_word(back)
}

// Every path's two words. A new record's number is both values on every path; a record that leaves has its own neighbours there.
pub fn with_sides(
    plan: Plan,
    e: &Entry,
    owners: [Part; 4],
    links: [Link; 4],
    values: [Link; 4],
) -> Plan
    requires count_value { plan.count ≡ 0 }
    requires points_in { PointsIn e.now 2097152 }
    requires owners_in { OwnersIn e.now owners 2097152 }
    requires links_in { LinksIn e.now links }
    ensures { Longer plan result (2 * e.now.count) (words_below e.now owners links values e.now.count) }
{
    let mut made = plan;
    for k in 0..e.count as usize {
        let p = path_of(*e, k);
        made = with_path(made, e, p, owners[k], links[k], values[k]);
    }
    made
}
