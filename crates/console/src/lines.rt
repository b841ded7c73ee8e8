// The six fields of a line.
ghost use Rattle.std.specs.Prelude.{◌≡◌, ◌≢◌, true, false, ◌+◌, ◌≤◌, length, MatchOption};
ghost use Rattle.console.specs.Lines.{end_from, end_of, start_of, field_of, is_dash, is_name, name_in, is_part, given_part};

// Where the field that begins at `at` ends: at the next blank, or at the line's end.
fn end_from(line: &[u8], at: usize) -> usize
    ensures { result ≡ end_from line.now at }
{
    for i in at..line.len() {
        if line[i] == b' ' {
            return i;
        }
    }
    at.max(line.len())
}

// Where field k ends.
pub fn end_of(line: &[u8], k: usize) -> usize
    requires { (length line.now ≤ 128) × (k ≤ 5) }
    ensures { result ≡ end_of line.now k }
{
    let mut at = end_from(line, 0);
    for _i in 0..k {
        at = end_from(line, at + 1);
    }
    at
}

// Where field k begins.
fn start_of(line: &[u8], k: usize) -> usize
    requires { (length line.now ≤ 128) × (k ≤ 5) }
    ensures { result ≡ start_of line.now k }
{
    if k == 0 {
        return 0;
    }
    end_of(line, k - 1) + 1
}

// The bytes of field k of a line of six.
pub fn field(line: &[u8], k: usize) -> &[u8]
    requires line_len_bound { (length line.now ≤ 128) × (k ≤ 5) }
    requires line_value { end_of line.now 5 ≡ length line.now }
    ensures { result.now ≡ field_of line.now k }
{
    let from = start_of(line, k);
    let to = end_of(line, k);
    &line[from..to]
}

// Is the field "-"?
fn is_dash(f: &[u8]) -> bool
    ensures { result ≡ is_dash f.now }
{
    octets::same(f, b"-")
}

// An operation's five bytes.
pub fn operation(f: &[u8]) -> Option<[u8; 5]>
    ensures { MatchOption result (length f.now ≢ 5) (λ operation. (length f.now ≡ 5) × (operation ≡ f.now)) }
{
    <[u8; 5]>::try_from(f).ok()
}

// A name of N bytes; "-" is passed as blanks.
pub fn name<const N: usize>(f: &[u8]) -> Option<[u8; N]>
    ensures { MatchOption result (is_name N f.now ≡ false) (λ name. (is_name N f.now ≡ true) × (name ≡ name_in N f.now)) }
{
    if is_dash(f) {
        return Some([b' '; N]);
    }
    <[u8; N]>::try_from(f).ok()
}

// A key or an area, which has bytes; "-" is empty.
pub fn part(f: &[u8]) -> Option<&[u8]>
    ensures { MatchOption result (is_part f.now ≡ false) (λ part. (is_part f.now ≡ true) × (part.now ≡ given_part f.now)) }
{
    if f.is_empty() {
        return None;
    }
    if is_dash(f) {
        return Some(&f[..0]);
    }
    Some(f)
}
