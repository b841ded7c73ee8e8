// Sign-on: is the data base sound? One pass over it: first the checks of all blocks; then, set by set, the bytes, and where these are clean
// the masters or the paths. Master sets come first in the schema, so a path's masters are judged before its chains are ridden.
#![tactic(auto)]

ghost use Rattle.std.specs.Prelude.{◌≡◌, length};
ghost use Rattle.octets.specs.Below.{all_below};
ghost use Rattle.schema.specs.Decode.{set_count};
ghost use Rattle.sound.specs.Linear.{paths_in_place, set_in_place, in_place};
ghost use Rattle.records.specs.InBase.{Laid, IsSetOf, VariableIn};
ghost use Rattle.signon.specs.Judged.{set_placed};

use clean::{checks_true, set_clean};
use masters::held::Masters;
use on_points::Chains;
use records::held::Set;
use schema::layout::{entry_of, path_of, sets};
use schema::{Entry, Schema};
use terms::EntryNo;

pub mod on_masters;
pub mod on_points;

// Every path of a variable set.
fn paths_in_place(base: &[u8], t: Schema, e: Entry) -> bool
    requires { VariableIn t e (length base.now) }
    ensures { result ≡ paths_in_place t base.now e }
{
    (0..usize::from(e.count)).all(|j| {
        let p = path_of(e, j);
        Chains::of(base, &e, p, &entry_of(t, p.master)).in_place()
    })
}

#[tactic(auto, using(crate::specs::SignOnLaws::set_dirty, crate::specs::SignOnLaws::set_masters, crate::specs::SignOnLaws::set_paths))]
fn set_in_place(base: &[u8], t: Schema, e: Entry) -> bool
    requires { IsSetOf t e (length base.now) }
    ensures { result ≡ set_in_place t base.now e }
{
    if !set_clean(&Set::of(base, &e)) {
        return false;
    }
    if e.kind == 1 {
        on_masters::masters_in_place(&Masters::of(base, &e))
    } else {
        paths_in_place(base, t, e)
    }
}

fn sets_in_place(base: &[u8], t: Schema) -> bool
    requires { Laid t (length base.now) }
    ensures { result ≡ all_below (set_placed t base.now) (set_count t) }
{
    (0..sets(t)).all(|i| set_in_place(base, t, entry_of(t, EntryNo(i))))
}

// "SINON gives 16 exactly if the data base is not sound"
pub fn sign_on(base: &[u8], t: Schema) -> bool
    requires { Laid t (length base.now) }
    ensures { result ≡ in_place t base.now }
{
    checks_true(base, t) && sets_in_place(base, t)
}
