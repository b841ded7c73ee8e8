// The adds and DELVD: what a point's call reads on every path of its set, what it refuses, and the plan of what it stores.
#![tactic(auto)]

ghost use Rattle.std.specs.Prelude.{◌≡◌, cond, List, ℕ, ◌<◌, length, take, IfOk};
ghost use Rattle.terms.specs.declared.Status.TheVariants.{Done, Full, Damg};
ghost use Rattle.terms.specs.Status.{status_of};
ghost use Rattle.schema.specs.declared.Schema.{Schema};
ghost use Rattle.schema.specs.Decode.{path_of};
ghost use Rattle.schema.specs.Numbers.{record_up_to};
ghost use Rattle.schema.specs.Place.{InSet};
ghost use Rattle.records.specs.Records.{key_on};
ghost use Rattle.records.specs.Areas.{area_length, area_key_on};
ghost use Rattle.plans.specs.declared.Head.TheVariants.{Nothing, Variable};
ghost use Rattle.plans.specs.PlanOk.{PlanOk};
ghost use Rattle.plans.specs.Stores.{plan_stores};
ghost use Rattle.masters.specs.declared.Found.TheVariants.{At};
ghost use Rattle.masters.specs.Find.{find};
ghost use Rattle.scan.specs.Scan.{is_full};
ghost use Rattle.points.specs.Points.{new_place, add_place, add_stores, del_stores};
ghost use Rattle.point_plans.specs.Rest.{add_status, del_status};
ghost use Rattle.point_plans.specs.Paths.{own_links, new_links, place_at, both_on, damaged};
ghost use Rattle.point_plans.specs.Within.{LinksIn, SpotIn};
ghost use Rattle.records.specs.InBase.{masters_kept, MastersOf};
ghost use Rattle.point_plans.specs.Plans.{Built};

use held::{OwnedPoint, Paths};
use plans::{Head, Plan};
use points::Spot;
use records::Link;
use scan::lowest_free;
use terms::{RecordNo, Refusal};

pub mod damage;
pub mod held;
pub mod links;
pub mod search;
pub mod sides;

// The path that a call names, and the record of its master.
#[derive(Clone, Copy)]
pub struct NamedPath {
    pub on: usize,
    pub master: RecordNo,
}

impl<'a> OwnedPoint<'a> {
    // The number of a new record, if the set is not full. Its prior neighbour on the named path is not tested yet, and has no say in it.
    fn new_place(&self, prior: u32) -> Option<RecordNo>
        ensures { result ≡ record_up_to self.now.entry.now.records (new_place self.now.base.now self.now.entry.now prior) }
    {
        lowest_free(&self.set())
    }

    // The plan of an add, for the record that it takes.
    fn linked_plan(&self, links: [Link; 4], r: RecordNo) -> Plan
        requires { LinksIn self.now.entry.now links }
        ensures { Built self.now.entry.now self.now.owners (take self.now.entry.now.count links) (both_on self.now.entry.now r.0) Variable r.0 0 result }
    {
        let both = Link {
            prior: r.0,
            next: r.0,
        };
        let plan = Plan::of(Head::Variable, r, RecordNo(0), links);
        sides::with_sides(plan, self.entry, self.owners, links, [both; 4])
    }

    // The plan of DELVD of the record r.
    fn unlinked_plan(&self, links: [Link; 4], r: RecordNo) -> Plan
        requires { LinksIn self.now.entry.now links }
        ensures { Built self.now.entry.now self.now.owners (take self.now.entry.now.count links) (take self.now.entry.now.count links) Nothing r.0 r.0 result }
    {
        let plan = Plan::of(Head::Nothing, r, RecordNo(0), links);
        sides::with_sides(plan, self.entry, self.owners, links, links).with_wiped(r)
    }

    // The rest of an add: "15; 16".
    fn add(&self, spot: Spot, on: usize) -> Result<Plan, Refusal>
        requires spot_in { SpotIn spot self.now.entry.now }
        requires on_lt_count { on < self.now.entry.now.count }
        ensures status { status_of result ≡ cond (is_full self.now.base.now self.now.entry.now) Full (cond (damaged self.now.base.now self.now.entry.now self.now.src.now self.now.at self.now.owners (new_links self.now.base.now self.now.entry.now self.now.owners spot on)) Damg Done) }
        ensures built { IfOk result (Built self.now.entry.now self.now.owners (new_links self.now.base.now self.now.entry.now self.now.owners spot on) (both_on self.now.entry.now (place_at self.now.base.now self.now.entry.now self.now.owners spot on)) Variable (place_at self.now.base.now self.now.entry.now self.now.owners spot on) 0) }
    {
        let links = links::new_links(self.base, self.entry, self.owners, spot, on);
        let place = self.new_place(links[on].prior).ok_or(Refusal::Full)?;
        if self.any_damaged(links) {
            return Err(Refusal::Damg);
        }
        Ok(self.linked_plan(links, place))
    }

    // The rest of DELVD of the record r, whose part the keys stand in.
    fn delete(&self, r: RecordNo) -> Result<Plan, Refusal>
        requires { InSet self.now.entry.now r.0 }
        ensures status { status_of result ≡ cond (damaged self.now.base.now self.now.entry.now self.now.src.now self.now.at self.now.owners (own_links self.now.base.now self.now.entry.now r.0)) Damg Done }
        ensures built { IfOk result (Built self.now.entry.now self.now.owners (own_links self.now.base.now self.now.entry.now r.0) (own_links self.now.base.now self.now.entry.now r.0) Nothing r.0 r.0) }
    {
        let links = links::own_links(self.base, self.entry, r);
        if self.any_damaged(links) {
            return Err(Refusal::Damg);
        }
        Ok(self.unlinked_plan(links, r))
    }
}

impl<'a> Paths<'a> {
    // An add, once the named path's master and the referenced record are known: what is left to refuse, or the plan of the new record.
    pub fn add(&self, area: &[u8], spot: Spot, named: NamedPath) -> Result<Plan, Refusal>
        requires area_len { length area.now ≡ area_length self.now.entry.now }
        requires spot_in { SpotIn spot self.now.entry.now }
        requires on_lt_count { named.on < self.now.entry.now.count }
        requires on_value { find self.now.base.now (masters_kept self.now.masters.now named.on) (area_key_on self.now.entry.now area.now named.on) ≡ At named.master }
        ensures status { (t : Schema) → MastersOf t self.now.entry.now self.now.masters.now → status_of result ≡ add_status self.now.base.now t self.now.entry.now area.now spot named.on }
        ensures plan { (t : Schema) → MastersOf t self.now.entry.now self.now.masters.now → IfOk result (λ plan. (plan_stores self.now.base.now self.now.entry.now area.now plan ≡ add_stores self.now.base.now t self.now.entry.now area.now spot named.on (add_place self.now.base.now t self.now.entry.now area.now spot named.on)) × PlanOk (length self.now.base.now) self.now.entry.now plan × (plan.target.0 ≡ add_place self.now.base.now t self.now.entry.now area.now spot named.on) × (plan.head ≡ Variable)) }
    {
        let at = search::area_places(*self.entry);
        let owners = self.all_owners(area, at, named, Some(Refusal::Mrnf))?;
        let point = OwnedPoint {
            base: self.base,
            entry: self.entry,
            src: area,
            at,
            owners,
        };
        point.add(spot, named.on)
    }

    // DELVD of the record r, once it and the named path's master are known.
    pub fn delete(&self, r: RecordNo, named: NamedPath) -> Result<Plan, Refusal>
        requires in_set { InSet self.now.entry.now r.0 }
        requires on_lt_count { named.on < self.now.entry.now.count }
        requires on_value { find self.now.base.now (masters_kept self.now.masters.now named.on) (key_on self.now.base.now self.now.entry.now r.0 (path_of self.now.entry.now named.on)) ≡ At named.master }
        ensures status { (t : Schema) → MastersOf t self.now.entry.now self.now.masters.now → status_of result ≡ del_status self.now.base.now t self.now.entry.now r.0 named.on }
        ensures plan { (t : Schema) → MastersOf t self.now.entry.now self.now.masters.now → IfOk result (λ plan. ((area : List ℕ) → plan_stores self.now.base.now self.now.entry.now area plan ≡ del_stores self.now.base.now t self.now.entry.now r.0) × PlanOk (length self.now.base.now) self.now.entry.now plan × (plan.head ≡ Nothing)) }
    {
        let part = self.set().record(r).bytes();
        let at = search::record_places(*self.entry);
        let owners = self.all_owners(part, at, named, Some(Refusal::Damg))?;
        let point = OwnedPoint {
            base: self.base,
            entry: self.entry,
            src: part,
            at,
            owners,
        };
        point.delete(r)
    }
}
