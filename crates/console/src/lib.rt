// The program of document 01, "Small store, worked", on slices: the small store, and what a line asks of it and prints. It reads and
// writes nothing outside its buffers.
#![tactic(auto)]

ghost use Rattle.std.specs.Prelude.{◌≡◌, true, false, cond, ◌≤◌, [], ◌∷◌, ◌++◌, eqb, length, take, set};
ghost use Rattle.console.specs.Console.{is_read, record_given, own_area, Replied, reply_to, responded, KeptLine};
ghost use Rattle.console.specs.Asked.{call_asked};

use asked::Asked;
use ends::Answer;
use terms::{Operation, Reference, Status};

mod asked;
mod lines;
mod printer;
mod references;
pub mod small;

// Does the operation give a record?
fn is_read(op: &[u8; 5]) -> bool
    ensures { result ≡ is_read op.now }
{
    matches!(
        Operation::from(op),
        Operation::Readm | Operation::Rdnxt | Operation::Readv | Operation::Readr | Operation::Readd
    )
}

// Is this the answer of a read that gave a record?
fn record_given(answer: Answer) -> bool
    ensures { result ≡ record_given answer.status answer.reference.0 }
{
    (answer.status == Status::Done) & (answer.reference != Reference::END)
}

// A read: it is lent an area of 8 bytes, and prints it if the read gave a record.
fn read(number: u64, asked: &Asked, schema: &[u8], base: &mut [u8], out: &mut [u8; 64]) -> usize
    requires { is_read asked.now.operation ≡ true }
    ensures { Replied result out.old out.new base.new (reply_to number asked.now.operation (call_asked asked.now own_area schema.now base.old)) }
{
    let mut area = [0u8; 8];
    let a = asked.call(&mut area, schema, base);
    let at = printer::answer(out, number, a.status, a.reference);
    if record_given(a) {
        return printer::finish(out, at, &area);
    }
    printer::finish(out, at, b"-")
}

// Any other call: its area is the line's, and is not printed.
fn act(number: u64, asked: &Asked, schema: &[u8], base: &mut [u8], out: &mut [u8; 64]) -> usize
    requires op_value { is_read asked.now.operation ≡ false }
    requires given_len_bound { length asked.now.area.now ≤ 128 }
    ensures { Replied result out.old out.new base.new (reply_to number asked.now.operation (call_asked asked.now asked.now.area.now schema.now base.old)) }
{
    let mut area = [0u8; 128];
    let n = asked.area.len();
    octets::copy_in(&mut area, 0, asked.area);
    let a = asked.call(&mut area[..n], schema, base);
    let at = printer::answer(out, number, a.status, a.reference);
    printer::finish(out, at, b"-")
}

// Makes the call that a line asks for.
fn ask(number: u64, asked: &Asked, schema: &[u8], base: &mut [u8], out: &mut [u8; 64]) -> usize
    requires { length asked.now.area.now ≤ 128 }
    ensures { Replied result out.old out.new base.new (reply_to number asked.now.operation (call_asked asked.now (cond (is_read asked.now.operation) own_area asked.now.area.now) schema.now base.old)) }
{
    if is_read(&asked.operation) {
        return read(number, asked, schema, base, out);
    }
    act(number, asked, schema, base, out)
}

// Makes the call of a line, if it is well made, and prints its answer: how many bytes of `out` it has.
pub fn respond(
    number: u64,
    line: &[u8],
    schema: &[u8],
    base: &mut [u8],
    out: &mut [u8; 64],
) -> usize
    ensures { Replied result out.old out.new base.new (responded number line.now schema.now base.old) }
{
    match Asked::parse(line) {
        None => printer::form(out, number),
        Some(a) => ask(number, &a, schema, base, out),
    }
}

// Stores a byte of a line behind the n that are kept. Of a longer line 129 bytes are kept: enough to tell that it is over 128.
pub fn keep(line: &mut [u8], n: usize, byte: u8) -> usize
    requires { (length line.old ≡ 129) × (n ≤ 129) }
    ensures kept_line { KeptLine result line.new (take n line.old ++ (byte ∷ [])) }
    ensures line_after { line.new ≡ cond (eqb n 129) line.old (set line.old n byte) }
{
    if n == 129 {
        return n;
    }
    line[n] = byte;
    n + 1
}
