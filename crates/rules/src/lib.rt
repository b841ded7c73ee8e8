// Every rule that document 01, "Blocks and the schema", makes for the schema's form: each function answers what one definition of
// specs/Rules.antt says. `s` is the schema buffer, `i` an entry's number, `j` a slot's number within its entry, and `p` and `q` number
// the slots of all entries in schema order. Tests of single bytes are joined by `&` and `|`,
// with no early way out: a schema that is in use breaks none.
#![tactic(auto)]

ghost use Rattle.std.specs.Prelude.{◌≡◌, cond, ◌+◌, ◌*◌, ◌≤◌, ◌<◌, ltb, length};
ghost use Rattle.octets.specs.Octets.{run, all_zero, same_bytes};
ghost use Rattle.octets.specs.Below.{all_below};
ghost use Rattle.blocks.specs.Blocks.{check_by, is_sealed};
ghost use Rattle.schema.specs.Fields.{edition_of, masters_of, sets_of};
ghost use Rattle.schema.specs.Rules.{is_capital_or_digit, head_rule, name_rule, master_rule, variable_rule, records_rule, path_rule, slot_rule, set_rule, entry_rule, rest_rule, names_rule, clash, letters_rule, form_rule};
ghost use Rattle.rules.specs.Parts.{older, apart, body_rule};

use blocks::Check;
use terms::BlockNo;

pub mod fields;

fn capital_or_digit(x: u8) -> bool
    ensures { result ≡ is_capital_or_digit x }
{
    x.is_ascii_uppercase() | x.is_ascii_digit()
}

// Are the n bytes from `at` on zero? kept: of a loop with no way out the compiler tests many bytes at once; with `octets::all`, which has
// one, a whole schema takes a tenth longer.
fn zeros(s: &[u8], at: usize, n: usize) -> bool
    requires { at + n ≤ length s.now }
    ensures { result ≡ all_zero (run s.now at n) }
{
    let mut ok = true;
    for &b in &s[at..at + n] {
        ok &= b == 0;
    }
    ok
}

// Are the n bytes from a on those from b on?
fn same_run(s: &[u8], a: usize, b: usize, n: usize) -> bool
    requires { (a + n ≤ length s.now) × (b + n ≤ length s.now) }
    ensures { result ≡ same_bytes (run s.now a n) (run s.now b n) }
{
    octets::same(&s[a..a + n], &s[b..b + n])
}

// Is the schema's check true? It is of the kind that its own byte 0 asks for.
fn sealed(s: &[u8]) -> bool
    requires { length s.now ≡ 512 }
    ensures { result ≡ is_sealed (check_by (edition_of s.now)) s.now 0 }
{
    blocks::sealed(s, BlockNo(0), s[0].into())
}

// "Byte 0 is 1; byte 1 is M, master sets, 1..4; byte 2 is V, variable sets, 0..4; bytes 3..15 zero."
fn head(s: &[u8]) -> bool
    requires { length s.now ≡ 512 }
    ensures { result ≡ head_rule s.now }
{
    let edition = s[0];
    let m = s[1];
    (edition == 1) & ((1 <= m) & (m <= 4)) & (s[2] <= 4) & zeros(s, 3, 13)
}

// "name 0..3 (capital letter, then capitals or digits ..)"
fn name(s: &[u8], i: usize) -> bool
    requires { (length s.now ≡ 512) × (i < 8) }
    ensures { result ≡ name_rule s.now i }
{
    let at = 16 + i * 48;
    let first = s[at];
    first.is_ascii_uppercase()
        & capital_or_digit(s[at + 1])
        & capital_or_digit(s[at + 2])
        & capital_or_digit(s[at + 3])
}

// A master: "kind byte 4 (1 ..)", "path count byte 5 (0 ..)", "key length K byte 12 (4, 8, 12 or 16 ..)".
fn master(s: &[u8], i: usize) -> bool
    requires { (length s.now ≡ 512) × (i < 8) }
    ensures { result ≡ master_rule s.now i }
{
    let at = 16 + i * 48;
    let k = s[at + 12];
    (s[at + 4] == 1) & (s[at + 5] == 0) & ((k == 4) | (k == 8) | (k == 12) | (k == 16))
}

// A variable: kind 2, path count 1..4, key length 0.
fn variable(s: &[u8], i: usize) -> bool
    requires { (length s.now ≡ 512) × (i < 8) }
    ensures { result ≡ variable_rule s.now i }
{
    let at = 16 + i * 48;
    let n = s[at + 5];
    (s[at + 4] == 2) & ((1 <= n) & (n <= 4)) & (s[at + 12] == 0)
}

// "masters first": the first M entries are masters, the others variables.
fn kind(s: &[u8], i: usize) -> bool
    requires { (length s.now ≡ 512) × (i < 8) }
    ensures { result ≡ cond (ltb i (masters_of s.now)) (master_rule s.now i) (variable_rule s.now i) }
{
    if i < fields::masters(s) {
        return master(s, i);
    }
    variable(s, i)
}

// "record count R 8..11, 1..65,535"
fn count(s: &[u8], i: usize) -> bool
    requires { (length s.now ≡ 512) × (i < 8) }
    ensures { result ≡ records_rule s.now i }
{
    let r = octets::word(s, 16 + i * 48 + 8);
    (1 <= r) & (r <= 65535)
}

// "letters xx (capitals or digits), master entry number (one byte, 0..M-1), five zeros"
fn path(s: &[u8], i: usize, j: usize) -> bool
    requires { (length s.now ≡ 512) × (i < 8) × (j < 4) }
    ensures { result ≡ path_rule s.now i j }
{
    let at = 16 + i * 48 + 16 + j * 8;
    capital_or_digit(s[at]) & capital_or_digit(s[at + 1]) & (s[at + 2] < s[1]) & zeros(s, at + 3, 5)
}

// The first `path count` slots hold paths; "unused slots zero".
fn slot(s: &[u8], i: usize, j: usize) -> bool
    requires { (length s.now ≡ 512) × (i < 8) × (j < 4) }
    ensures { result ≡ slot_rule s.now i j }
{
    if j < fields::paths(s, i) {
        return path(s, i, j);
    }
    zeros(s, 16 + i * 48 + 16 + j * 8, 8)
}

fn slots(s: &[u8], i: usize) -> bool
    requires { (length s.now ≡ 512) × (i < 8) }
    ensures { result ≡ all_below (slot_rule s.now i) 4 }
{
    (0..4).all(|j| slot(s, i, j))
}

// A used entry; "13..15 zero".
fn set(s: &[u8], i: usize) -> bool
    requires { (length s.now ≡ 512) × (i < 8) }
    ensures { result ≡ set_rule s.now i }
{
    name(s, i) & kind(s, i) & count(s, i) & zeros(s, 16 + i * 48 + 13, 3) & slots(s, i)
}

// "unused entries .. are zero"
fn entry(s: &[u8], i: usize) -> bool
    requires { (length s.now ≡ 512) × (i < 8) }
    ensures { result ≡ entry_rule s.now i }
{
    if i < fields::sets(s) {
        return set(s, i);
    }
    zeros(s, 16 + i * 48, 48)
}

fn entries(s: &[u8]) -> bool
    requires { length s.now ≡ 512 }
    ensures { result ≡ all_below (entry_rule s.now) 8 }
{
    (0..8).all(|i| entry(s, i))
}

// ".. and the rest up to 507": the eight entries end at 400.
fn rest(s: &[u8]) -> bool
    requires { length s.now ≡ 512 }
    ensures { result ≡ rest_rule s.now }
{
    zeros(s, 400, 108)
}

// No entry before entry k has its name.
fn new_name(s: &[u8], k: usize) -> bool
    requires { (length s.now ≡ 512) × (k < 8) }
    ensures { result ≡ all_below (older s.now k) k }
{
    (0..k).all(|i| !same_run(s, 16 + i * 48, 16 + k * 48, 4))
}

// "name .. (.. all distinct)"
fn names(s: &[u8]) -> bool
    requires { (length s.now ≡ 512) × (sets_of s.now ≤ 8) }
    ensures { result ≡ names_rule s.now }
{
    (0..fields::sets(s)).all(|k| new_name(s, k))
}

// Do two paths of one set, or to one master, share xx?
fn clashes(s: &[u8], p: usize, q: usize) -> bool
    requires { (length s.now ≡ 512) × (p < 32) × (q < 32) }
    ensures { result ≡ clash s.now p q }
{
    if !(fields::used(s, p) & fields::used(s, q)) {
        return false;
    }
    let a = 16 + p / 4 * 48 + 16 + p % 4 * 8;
    let b = 16 + q / 4 * 48 + 16 + q % 4 * 8;
    ((p / 4 == q / 4) | (s[a + 2] == s[b + 2])) & same_run(s, a, b, 2)
}

// No path in a slot before q clashes with that of slot q. Where slot q holds none there is nothing to compare.
fn new_letters(s: &[u8], q: usize) -> bool
    requires { (length s.now ≡ 512) × (q < 32) }
    ensures { result ≡ all_below (apart s.now q) q }
{
    !fields::used(s, q) || (0..q).all(|p| !clashes(s, p, q))
}

// "No two paths of one variable set share xx; no two paths to one master do."
fn letters(s: &[u8]) -> bool
    requires { (length s.now ≡ 512) × (sets_of s.now ≤ 8) }
    ensures { result ≡ letters_rule s.now }
{
    (0..4 * fields::sets(s)).all(|q| new_letters(s, q))
}

// What is left where the buffer is one block with a true check and a head that says how many entries there are.
fn body(s: &[u8]) -> bool
    requires { (length s.now ≡ 512) × (sets_of s.now ≤ 8) }
    ensures { result ≡ body_rule s.now }
{
    entries(s) & rest(s) & names(s) & letters(s)
}

// Does the schema keep every rule but those on sizes?
pub fn form(s: &[u8]) -> bool
    ensures { result ≡ form_rule s.now }
{
    if s.len() != 512 {
        return false;
    }
    if !(sealed(s) & head(s)) {
        return false;
    }
    body(s)
}
