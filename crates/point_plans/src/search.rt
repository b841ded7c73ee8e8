// The masters of a point's keys, path by path. A key is a run of a buffer: the area in an add, the record's part in DELVD. Each master is
// looked for once, and what is kept of it is where its record lies.
ghost use Rattle.std.specs.Prelude.{◌≡◌, ◌≤◌, length, take, drop, replicate, IfOk};
ghost use Rattle.octets.specs.Octets.{zeros};
ghost use Rattle.octets.specs.Below.{upto};
ghost use Rattle.terms.specs.Status.{status_of};
ghost use Rattle.terms.specs.Terms.{key_of};
ghost use Rattle.schema.specs.Decode.{path_of};
ghost use Rattle.records.specs.Areas.{area_key_place};
ghost use Rattle.masters.specs.declared.Found.TheVariants.{At};
ghost use Rattle.masters.specs.Find.{find};
ghost use Rattle.point_plans.specs.Rest.{other_masters};
ghost use Rattle.point_plans.specs.Paths.{no_part, absent_status, owner_of, owner_on, key_at};
ghost use Rattle.point_plans.specs.Within.{KeysIn};
ghost use Rattle.records.specs.InBase.{masters_kept};

use super::NamedPath;
use super::held::Paths;
use masters::Found;
use masters::held::Masters;
use schema::layout::{part_of, path_of};
use schema::{Entry, Part};
use terms::{Key, Refusal};

// Where the paths' keys stand in an area of the set.
pub fn area_places(e: Entry) -> [usize; 4]
    requires { e.count ≤ 4 }
    ensures result_value { take e.count result ≡ upto (area_key_place e) e.count }
    ensures result_value_2 { drop e.count result ≡ drop e.count (zeros 4) }
{
    let mut at = [0usize; 4];
    let mut from: usize = 0;
    for k in 0..e.count as usize {
        at[k] = from;
        from += path_of(e, k).len as usize;
    }
    at
}

// Where they stand in a record of the set.
pub fn record_places(e: Entry) -> [usize; 4]
    requires { e.count ≤ 4 }
    ensures result_value { take e.count result ≡ upto (λ k. (path_of e k).at) e.count }
    ensures result_value_2 { drop e.count result ≡ drop e.count (zeros 4) }
{
    let mut at = [0usize; 4];
    for k in 0..e.count as usize {
        at[k] = path_of(e, k).at as usize;
    }
    at
}

// The master of a key among the masters of its path: where its record lies. Of a master that is missing the caller says what it comes to:
// a refusal, or no part.
fn owner_among(masters: &Masters, key: Key, absent: Option<Refusal>) -> Result<Part, Refusal>
    requires le_records { 1 ≤ masters.now.entry.now.records }
    requires len_value { key.len ≡ masters.now.entry.now.key }
    ensures { result ≡ owner_of absent masters.now.entry.now (find masters.now.base.now masters.now.entry.now (key_of key)) }
{
    match masters.find(key).found {
        Found::At(m) => Ok(part_of(*masters.entry, m)),
        Found::Missing => match absent {
            Some(why) => Err(why),
            None => Ok(Part { at: 0, size: 0 }),
        },
        Found::Damaged => Err(Refusal::Damg),
    }
}

// The master of path k; the named path's is known already.
fn owner_on(
    masters: &Masters,
    key: Key,
    k: usize,
    named: NamedPath,
    absent: Option<Refusal>,
) -> Result<Part, Refusal>
    requires le_records { 1 ≤ masters.now.entry.now.records }
    requires len_value { key.len ≡ masters.now.entry.now.key }
    requires key_value { k ≡ named.on → find masters.now.base.now masters.now.entry.now (key_of key) ≡ At named.master }
    ensures { result ≡ owner_of absent masters.now.entry.now (find masters.now.base.now masters.now.entry.now (key_of key)) }
{
    if k == named.on {
        return Ok(part_of(*masters.entry, named.master));
    }
    owner_among(masters, key, absent)
}

impl<'a> Paths<'a> {
    // "the other paths' masters in path order": the first refusal, or where every path's master lies.
    pub fn all_owners(
        &self,
        src: &[u8],
        at: [usize; 4],
        named: NamedPath,
        absent: Option<Refusal>,
    ) -> Result<[Part; 4], Refusal>
        requires keys_in { KeysIn self.now.entry.now at (length src.now) }
        requires on_value { find self.now.base.now (masters_kept self.now.masters.now named.on) (key_at src.now self.now.entry.now at named.on) ≡ At named.master }
        ensures status { status_of result ≡ other_masters self.now.base.now (masters_kept self.now.masters.now) named.on (absent_status absent) (key_at src.now self.now.entry.now at) self.now.entry.now.count }
        ensures found { IfOk result (λ parts. take self.now.entry.now.count parts ≡ upto (owner_on self.now.base.now (masters_kept self.now.masters.now) (key_at src.now self.now.entry.now at)) self.now.entry.now.count) }
        ensures rest { IfOk result (λ parts. drop self.now.entry.now.count parts ≡ drop self.now.entry.now.count (replicate 4 no_part)) }
    {
        let mut parts = [Part { at: 0, size: 0 }; 4];
        for k in 0..self.entry.count as usize {
            let p = path_of(*self.entry, k);
            let key = Key::part(src, at[k], p.len as usize);
            parts[k] = owner_on(&self.masters_on(k), key, k, named, absent)?;
        }
        Ok(parts)
    }
}
