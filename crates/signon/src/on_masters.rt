// The masters of a set: each must be found from its home by its own key, in its own record, and answer to its neighbours in ROOT.
ghost use Rattle.std.specs.Prelude.{◌≡◌, ◌≤◌};
ghost use Rattle.schema.specs.Place.{InSet};
ghost use Rattle.sound.specs.Linear.{found_at, is_of_home, next_answers, prior_ends, master_in_place, masters_in_place};
ghost use Rattle.signon.specs.Judged.{in_place_at};

use masters::Found;
use masters::held::{Master, Masters};
use terms::RecordNo;

// Did the search end at the record r?
fn found_at(f: Found, r: RecordNo) -> bool
    ensures { result ≡ found_at f r.0 }
{
    f == Found::At(r)
}

// Is the pointer a live master of the home h?
fn of_home(masters: &Masters, h: RecordNo, q: u32) -> bool
    requires { 1 ≤ q }
    ensures { result ≡ is_of_home masters.now.base.now masters.now.entry.now h.0 q }
{
    let r = RecordNo(q);
    q <= masters.entry.records && masters.at(r).record().is_live() && masters.at(r).own_home() == h
}

// ROOT next is 0, or a master of the same home that points back.
#[tactic(auto, using(crate::specs::HomeLaws::next_none, crate::specs::HomeLaws::next_other, crate::specs::HomeLaws::next_back))]
fn next_answers(masters: &Masters, r: RecordNo) -> bool
    requires { InSet masters.now.entry.now r.0 }
    ensures { result ≡ next_answers masters.now.base.now masters.now.entry.now r.0 }
{
    let master = masters.at(r);
    let q = master.record().root_next();
    q == 0
        || of_home(masters, master.own_home(), q)
            && masters.at(RecordNo(q)).record().root_prior() == r.0
}

// At its home a master has no ROOT prior. Elsewhere the master in front of it answers for it.
#[tactic(auto, using(crate::specs::HomeLaws::prior_synonym, crate::specs::HomeLaws::prior_home))]
fn prior_ends(master: &Master) -> bool
    ensures { result ≡ prior_ends master.now.base.now master.now.entry.now master.now.number.0 }
{
    master.number != master.own_home() || master.record().root_prior() == 0
}

#[tactic(auto, using(crate::specs::HomeLaws::place_blank, crate::specs::HomeLaws::place_lost, crate::specs::HomeLaws::place_next, crate::specs::HomeLaws::place_prior))]
fn master_in_place(masters: &Masters, r: RecordNo) -> bool
    requires { InSet masters.now.entry.now r.0 }
    ensures { result ≡ master_in_place masters.now.base.now masters.now.entry.now r.0 }
{
    let master = masters.at(r);
    let k = master.record().key(12, usize::from(masters.entry.key));
    if k.is_blank() || !found_at(masters.find(k).found, r) {
        return false;
    }
    next_answers(masters, r) && prior_ends(&master)
}

// A record that is not live is no master, and needs no place.
fn record_in_place(masters: &Masters, r: RecordNo) -> bool
    requires { InSet masters.now.entry.now r.0 }
    ensures { result ≡ in_place_at masters.now.base.now masters.now.entry.now r.0 }
{
    !masters.at(r).record().is_live() || master_in_place(masters, r)
}

// "no blank key; live master keys distinct; each home's masters one two-way chain from the home, 0 at both ends"
pub fn masters_in_place(masters: &Masters) -> bool
    ensures { result ≡ masters_in_place masters.now.base.now masters.now.entry.now }
{
    (0..masters.entry.records).all(|k| record_in_place(masters, RecordNo(k + 1)))
}
