// The set and the path that a call names.
#![tactic(auto)]

ghost use Rattle.std.specs.Prelude.{◌≡◌, length};
ghost use Rattle.octets.specs.Octets.{same_bytes};
ghost use Rattle.schema.specs.Decode.{set_count};
ghost use Rattle.schema.specs.Guarantee.{SchemaOk};
ghost use Rattle.schema.specs.Naming.{set_named, path_name, path_named};
ghost use Rattle.schema.specs.Numbers.{entry_below, number_below};
ghost use Rattle.names.specs.Names.{LeadsToMasters, Named};

use schema::{Entry, Path, Schema, layout};
use terms::EntryNo;

// The number of the set of that name, if there is one.
pub fn set_named(t: Schema, name: &[u8]) -> Option<EntryNo>
    requires schema_ok { SchemaOk t }
    requires name_len { length name.now ≡ 4 }
    ensures { result ≡ entry_below (set_count t) (set_named t name.now) }
{
    layout::set_of(t, octets::word(name, 0))
}

// "The path is named mmmmLKxx, mmmm the master.": is that the name? Its two words are the master's name and the path's LKxx.
fn is_named(t: Schema, p: Path, name: &[u8]) -> bool
    requires { Named t p }
    ensures { result ≡ same_bytes (path_name t p) name.now }
{
    if name.len() != 8 {
        return false;
    }
    let x = layout::entry_of(t, p.master);
    let mmmm = octets::word(name, 0);
    let master = x.name;
    if master != mmmm {
        return false;
    }
    let link = p.reference();
    octets::word(name, 4) == link.0
}

// The number of the path of that name in the set, if there is one.
pub fn path_named(t: Schema, e: Entry, name: &[u8]) -> Option<usize>
    requires { LeadsToMasters t e }
    ensures { result ≡ number_below e.count (path_named t e name.now) }
{
    for j in 0..e.count as usize {
        let p = layout::path_of(e, j);
        if is_named(t, p, name) {
            return Some(j);
        }
    }
    None
}
