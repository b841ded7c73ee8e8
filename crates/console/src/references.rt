// References: read from a field, and told apart from record numbers.
ghost use Rattle.std.specs.Prelude.{◌≡◌, true, false, MatchOption};
ghost use Rattle.console.specs.References.{is_spelt, is_decimal, decimal_of, is_reference, reference_of};

use terms::Reference;

// Is v END. or an LKxx?
pub fn is_spelt(v: u32) -> bool
    ensures { result ≡ is_spelt v }
{
    let a = (v / 256 % 256) as u8;
    let b = (v % 256) as u8;
    let link = Reference::link(a, b);
    let first = a.is_ascii_uppercase() | a.is_ascii_digit();
    let second = b.is_ascii_uppercase() | b.is_ascii_digit();
    (Reference(v) == Reference::END) | ((v == link.0) & first & second)
}

// The number that digits spell, up to 4,294,967,295.
fn decimal(f: &[u8]) -> Option<u32>
    ensures { MatchOption result (is_decimal f.now ≡ false) (λ n. (is_decimal f.now ≡ true) × (n ≡ decimal_of f.now)) }
{
    if f.is_empty() {
        return None;
    }
    let mut n: u32 = 0;
    for &x in f {
        if !x.is_ascii_digit() {
            return None;
        }
        n = n.checked_mul(10)?.checked_add(u32::from(x - b'0'))?;
    }
    Some(n)
}

// The reference that a field says.
pub fn reference(f: &[u8]) -> Option<Reference>
    ensures { MatchOption result (is_reference f.now ≡ false) (λ r. (is_reference f.now ≡ true) × (r.0 ≡ reference_of f.now)) }
{
    if f.len() == 4 {
        let v = octets::word(f, 0);
        if is_spelt(v) {
            return Some(Reference(v));
        }
    }
    Some(Reference(decimal(f)?))
}
