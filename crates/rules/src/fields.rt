// What the schema's bytes say, read one by one: specs/Fields.antt in code.
ghost use Rattle.std.specs.Prelude.{◌≡◌, ◌+◌, ◌<◌, length};
ghost use Rattle.schema.specs.Fields.{masters_of, sets_of, count_of};
ghost use Rattle.schema.specs.Rules.{is_path_slot};

pub fn masters(s: &[u8]) -> usize
    requires { length s.now ≡ 512 }
    ensures { result ≡ masters_of s.now }
{
    usize::from(s[1])
}

// How many sets there are.
pub fn sets(s: &[u8]) -> usize
    requires { length s.now ≡ 512 }
    ensures { result ≡ sets_of s.now }
{
    usize::from(s[1]) + usize::from(s[2])
}

// How many paths entry i has.
pub fn paths(s: &[u8], i: usize) -> usize
    requires { (length s.now ≡ 512) × (i < 8) }
    ensures { result ≡ count_of s.now i }
{
    usize::from(s[16 + i * 48 + 5])
}

// Does slot q hold a path?
pub fn used(s: &[u8], q: usize) -> bool
    requires { (length s.now ≡ 512) × (q < 32) }
    ensures { result ≡ is_path_slot s.now q }
{
    q % 4 < paths(s, q / 4)
}
