// What is printed for a line, put together in a buffer of 64 bytes. A function that puts something says what the buffer begins
// with then; behind that it stays as it was.
ghost use Rattle.std.specs.Prelude.{◌≡◌, [], ◌∷◌, ◌++◌, ◌+◌, ◌%◌, ◌≤◌, length, take, drop};
ghost use Rattle.octets.specs.Text.{text};
ghost use Rattle.terms.specs.Status.{status_code};
ghost use Rattle.console.specs.References.{decimal, written};
ghost use Rattle.console.specs.Console.{RestStays, unmade};

use crate::references::is_spelt;
use terms::{Reference, Status};

// Stores src behind what the buffer holds, and gives the new length.
pub fn put(out: &mut [u8; 64], at: usize, src: &[u8]) -> usize
    requires { at + length src.now ≤ 64 }
    ensures { (result ≡ at + length src.now) × (take result out.new ≡ take at out.old ++ src.now) × RestStays result out.old out.new }
{
    octets::copy_in(out, at, src);
    at + src.len()
}

// The digits of n, stored up to the buffer's end: where they begin.
fn spell(digits: &mut [u8; 20], n: u64) -> usize
    ensures { (drop result digits.new ≡ decimal n) × (result ≤ 20) }
{
    let mut rest = n;
    for i in (0..20).rev() {
        digits[i] = b'0' + (rest % 10) as u8;
        if rest < 10 {
            return i;
        }
        rest /= 10;
    }
    0
}

// Puts a number in decimal.
fn put_decimal(out: &mut [u8; 64], at: usize, n: u64) -> usize
    requires { at ≤ 44 }
    ensures { (result ≤ at + 20) × (take result out.new ≡ take at out.old ++ decimal n) × RestStays result out.old out.new × (at ≤ result) }
{
    let mut digits = [0u8; 20];
    let from = spell(&mut digits, n);
    put(out, at, &digits[from..])
}

// Puts a reference: four characters where it equals them, else in decimal.
fn put_reference(out: &mut [u8; 64], at: usize, v: u32) -> usize
    requires { at ≤ 44 }
    ensures { (result ≤ at + 20) × (take result out.new ≡ take at out.old ++ written v) × RestStays result out.old out.new × (at ≤ result) }
{
    if is_spelt(v) {
        return put(out, at, &v.to_be_bytes());
    }
    put_decimal(out, at, u64::from(v))
}

// Begins a line: its number and a code, a blank behind each.
fn start(out: &mut [u8; 64], number: u64, code: &[u8; 4]) -> usize
    ensures { (result ≤ 26) × (take result out.new ≡ decimal number ++ text " " ++ code.now ++ text " ") × RestStays result out.old out.new }
{
    let a = put_decimal(out, 0, number);
    let b = put(out, a, b" ");
    let c = put(out, b, code);
    put(out, c, b" ")
}

// Ends a line with an area, or what stands for it.
pub fn finish(out: &mut [u8; 64], at: usize, area: &[u8]) -> usize
    requires { (at ≤ 46) × (length area.now ≤ 8) }
    ensures { (result ≤ 64) × (take result out.new ≡ take at out.old ++ text " " ++ area.now ++ (10 ∷ [])) × RestStays result out.old out.new × (at ≤ result) }
{
    let a = put(out, at, b" ");
    let b = put(out, a, area);
    put(out, b, b"\n")
}

// A line that makes no call.
pub fn form(out: &mut [u8; 64], number: u64) -> usize
    ensures { (result ≤ 64) × (take result out.new ≡ unmade number) × RestStays result out.old out.new }
{
    let a = start(out, number, b"FORM");
    let b = put(out, a, b"-");
    finish(out, b, b"-")
}

// A call's answer, all but the area.
pub fn answer(out: &mut [u8; 64], number: u64, status: Status, reference: Reference) -> usize
    ensures { (result ≤ 46) × (take result out.new ≡ decimal number ++ text " " ++ status_code status ++ text " " ++ written reference.0) × RestStays result out.old out.new }
{
    let code = status.code();
    let at = start(out, number, &code);
    put_reference(out, at, reference.0)
}
