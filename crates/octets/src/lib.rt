// Bytes of a buffer: big-endian numbers, runs that are stored, compared and summed. Every store is one `splice` of the buffer.
#![tactic(auto)]

ghost use Rattle.std.specs.Prelude.{◌≡◌, ◌+◌, ◌≤◌, length};
ghost use Rattle.octets.specs.Octets.{Apart, word4, half_at, word_at, run, splice, set_word, zeros, every, is, same_bytes, sum_onto};

// The number of two bytes whose first is at `at`.
pub fn half(s: &[u8], at: usize) -> u16
    requires { at + 2 ≤ length s.now }
    ensures { result ≡ half_at s.now at }
{
    u16::from_be_bytes([s[at], s[at + 1]])
}

// The word whose first byte is at `at`.
pub fn word(s: &[u8], at: usize) -> u32
    requires { at + 4 ≤ length s.now }
    ensures { result ≡ word_at s.now at }
{
    u32::from_be_bytes([s[at], s[at + 1], s[at + 2], s[at + 3]])
}

// Stores the word v at `at`.
pub fn put_word(s: &mut [u8], at: usize, v: u32)
    requires { at + 4 ≤ length s.old }
    ensures { s.new ≡ set_word s.old at v }
{
    s[at..at + 4].copy_from_slice(&v.to_be_bytes());
}

// Stores all of src at `at` of dst.
pub fn copy_in(dst: &mut [u8], at: usize, src: &[u8])
    requires { at + length src.now ≤ length dst.old }
    ensures { dst.new ≡ splice dst.old at src.now }
{
    // kept: the loop. Of `copy_from_slice` LLVM makes a call of memmove, and the archive for C asks for memcpy and memset alone.
    for i in 0..src.len() {
        dst[at + i] = src[i];
    }
}

// Stores n zeros at `at` of dst.
pub fn zero(dst: &mut [u8], at: usize, n: usize)
    requires { at + n ≤ length dst.old }
    ensures { dst.new ≡ splice dst.old at (zeros n) }
{
    dst[at..at + n].fill(0);
}

// Stores the n bytes from `from` at `to` of the same buffer. The two runs are apart.
pub fn move_within(s: &mut [u8], from: usize, to: usize, n: usize)
    requires n_in_bounds { from + n ≤ length s.old }
    requires n_in_bounds_2 { to + n ≤ length s.old }
    requires apart { Apart to n from n }
    ensures { s.new ≡ splice s.old to (run s.old from n) }
{
    s.copy_within(from..from + n, to);
}

// Are the two runs the same, in length too?
pub fn same(a: &[u8], b: &[u8]) -> bool
    ensures { result ≡ same_bytes a.now b.now }
{
    a == b
}

// Is every byte v? Asked of zeros and of blanks.
pub fn all(s: &[u8], v: u8) -> bool
    ensures { result ≡ every (is v) s.now }
{
    // kept: the iterator's `all` takes half as long again.
    for &b in s {
        if b != v {
            return false;
        }
    }
    true
}

// Four bytes as a word. kept: of `from_be_bytes` LLVM makes vectors in `word_sum`, which then takes half as long again.
fn join_four(a: u8, b: u8, c: u8, d: u8) -> u32
    ensures { result ≡ word4 a b c d }
{
    (a as u32) * 16777216 + (b as u32) * 65536 + (c as u32) * 256 + (d as u32)
}

// The wrapping sum of `from` and the run's words: a block's check begins at the block's number, a key's sum at 0.
pub fn word_sum(s: &[u8], from: u32) -> u32
    ensures { result ≡ sum_onto from s.now }
{
    let (words, _) = s.as_chunks::<4>();
    let mut sum = from;
    for w in words {
        sum = sum.wrapping_add(join_four(w[0], w[1], w[2], w[3]));
    }
    sum
}
