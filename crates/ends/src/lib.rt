// How a call ends: refused, with a record that is given, or with stores that are committed.
#![tactic(auto)]

ghost use Rattle.std.specs.Prelude.{◌≡◌, ℕ, length, IfSome};
ghost use Rattle.blocks.specs.Blocks.{check_by};
ghost use Rattle.schema.specs.Place.{LiesIn, InSet};
ghost use Rattle.records.specs.Areas.{area_length};
ghost use Rattle.terms.specs.declared.Status.TheVariants.{Done};
ghost use Rattle.terms.specs.Status.{status_of};
ghost use Rattle.records.specs.Fields.{Fields};
ghost use Rattle.plans.specs.PlanOk.{PlanOk, AreaOk};
ghost use Rattle.plans.specs.Stores.{plan_stores};
ghost use Rattle.ends.specs.Ends.{Ends, number_of, reference_returned, gave, settled};

use plans::Plan;
use records::held::Set;
use schema::Entry;
use terms::{RecordNo, Reference, Refusal, Status};

// What a call returns.
#[derive(Clone, Copy)]
pub struct Answer {
    pub status: Status,
    pub reference: Reference,
}

impl Answer {
    // A refused call gives back the reference that it was given.
    pub fn of(ended: Result<Reference, Refusal>, given: Reference) -> Answer
        ensures status { result.status ≡ status_of ended }
        ensures reference { result.reference.0 ≡ reference_returned given.0 ended }
    {
        match ended {
            Ok(reference) => Answer {
                status: Status::Done,
                reference,
            },
            Err(why) => Answer {
                status: why.into(),
                reference: given,
            },
        }
    }
}

// A read that is done gives the record: "No such record: status 0, reference END., area untouched."
pub fn give(base: &[u8], e: Entry, found: Option<RecordNo>, area: &mut [u8]) -> Reference
    requires lies_in { LiesIn e (length base.now) }
    requires fields { Fields e }
    requires in_set { IfSome found (λ r. InSet e r.0) }
    requires area_len { length area.old ≡ area_length e }
    ensures { Ends (gave base.now e (number_of found) area.old) Done result.0 area.new base.now }
{
    let Some(r) = found else {
        return Reference::END;
    };
    areas::read_area(&Set::of(base, &e).record(r), area);
    r.into()
}

// A call that stores: its plan, and the reference that it returns where it is done.
pub fn settle(
    base: &mut [u8],
    e: Entry,
    area: &[u8],
    plan: Plan,
    after: Reference,
) -> Result<Reference, Refusal>
    requires lies_in { LiesIn e (length base.old) }
    requires fields { Fields e }
    requires plan_ok { PlanOk (length base.old) e plan }
    requires area_ok { AreaOk plan.head e area.now }
    ensures { (given : ℕ) → Ends (settled (check_by e.edition) Done base.old (plan_stores base.old e area.now plan) after.0 given area.now) (status_of result) (reference_returned given result) area.now base.new }
{
    if commit::commit(base, e, area, plan) {
        Ok(after)
    } else {
        Err(Refusal::Damg)
    }
}
