// Document 01's program: it formats the small store, makes the call of each line of standard input, and prints the answers. What a line
// does and prints is proved in the crate `console`; here bytes are read, cut into lines, and written, from any reader to any writer. The
// contracts say where the program stands after the bytes that it has taken: the line's number, what is kept of the line, the data base.
// They say too which bytes are taken and written, of a reader and a writer whose bytes std can name; of standard input and output it says
// nothing. A read or a write that fails ends the program with its error, and no other error comes: the contracts say where the program
// stands then.
#![tactic(auto)]

ghost use Rattle.std.specs.Prelude.{◌≡◌, ◌≢◌, ℕ, ◌+◌, ◌<◌, ◌≤◌, not, List, length, take, slice_index, ◌==◌, IfOk, OnOk, OnErr, IfSome, false, ◌-◌, ◌^◌};
ghost use Rattle.std.specs.Io.KnownBytes.{Appends, Consumes, IsAtEnd};
ghost use Rattle.console.specs.Console.{Replied, responded};
ghost use Rattle.console.specs.Session.{Stand, begun, byte_taken, bytes_taken, last_reply, StandsAt, Leads};
ghost use Rattle.yarugota.specs.Printed.{byte_printed, bytes_printed, small_session};

use std::io;
use std::io::{Read, Write};

// The line that is being read: its number, and how many of its bytes are kept.
#[derive(Clone, Copy)]
struct Progress {
    number: u64,
    len: usize,
}

// Writes what is printed. Of a write that fails, some may be written.
fn print<W: Write>(to: &mut W, out: &[u8], n: usize) -> io::Result<()>
    requires { n ≤ length out.now }
    ensures written { OnOk result (Appends (W.contents to.old) (W.contents to.new) (take n out.now)) }
{
    to.write_all(&out[..n])
}

// Answers a line, by way of a buffer. Where the write fails, the data base is as the line leaves it all the same.
fn answer<W: Write>(
    to: &mut W,
    number: u64,
    line: &[u8],
    schema: &[u8],
    base: &mut [u8],
    out: &mut [u8; 64],
) -> io::Result<()>
    ensures replied { (n : ℕ) × Replied n out.old out.new base.new (responded number line.now schema.now base.old) }
    ensures written { OnOk result (Appends (W.contents to.old) (W.contents to.new) (responded number line.now schema.now base.old).printed) }
{
    let n = console::respond(number, line, schema, base, out);
    print(to, out, n)
}

fn end_line<W: Write>(
    to: &mut W,
    number: u64,
    line: &[u8],
    schema: &[u8],
    base: &mut [u8],
) -> io::Result<()>
    ensures kept { base.new ≡ (responded number line.now schema.now base.old).base }
    ensures written { OnOk result (Appends (W.contents to.old) (W.contents to.new) (responded number line.now schema.now base.old).printed) }
{
    let mut out = [0u8; 64];
    answer(to, number, line, schema, base, &mut out)
}

// Takes one byte: a newline ends the line, any other byte is kept.
fn take_byte<W: Write>(
    to: &mut W,
    progress: Progress,
    byte: u8,
    line: &mut [u8],
    schema: &[u8],
    base: &mut [u8],
) -> io::Result<Progress>
    requires { (length line.old ≡ 129) × (progress.len ≤ 129) }
    ensures len_bound { IfOk result (λ r. r.len ≤ 129) }
    ensures leads { IfOk result (λ r. Leads (λ s. byte_taken schema.now s byte) progress.number progress.len line.old base.old r.number r.len line.new base.new) }
    ensures written { OnOk result ((s : Stand) → StandsAt s progress.number progress.len line.old base.old → Appends (W.contents to.old) (W.contents to.new) (byte_printed schema.now s byte)) }
    // A write fails at a newline alone, and the byte is taken all the same.
    ensures at_newline { OnErr result (byte ≡ 10) }
    ensures led { OnErr result ((next : ℕ) × (more : ℕ) × Leads (λ s. byte_taken schema.now s byte) progress.number progress.len line.old base.old next more line.new base.new) }
{
    let number = progress.number;
    let len = progress.len;
    if byte == 10 {
        end_line(to, number, &line[..len], schema, base)?;
        let next = number.wrapping_add(1);
        return Ok(Progress {
            number: next,
            len: 0,
        });
    }
    let more = console::keep(line, len, byte);
    Ok(Progress {
        number: number,
        len: more,
    })
}

// Takes the bytes of one read.
fn take_bytes<W: Write>(
    to: &mut W,
    progress: Progress,
    bytes: &[u8],
    line: &mut [u8],
    schema: &[u8],
    base: &mut [u8],
) -> io::Result<Progress>
    requires { (length line.old ≡ 129) × (progress.len ≤ 129) }
    ensures len_bound { IfOk result (λ r. r.len ≤ 129) }
    ensures leads { IfOk result (λ r. Leads (λ s. bytes_taken schema.now s bytes.now) progress.number progress.len line.old base.old r.number r.len line.new base.new) }
    ensures written { OnOk result ((s : Stand) → StandsAt s progress.number progress.len line.old base.old → Appends (W.contents to.old) (W.contents to.new) (bytes_printed schema.now s bytes.now)) }
    // A write that fails is that of a newline among the bytes: those up to it are taken.
    ensures led { OnErr result ((i : ℕ) × (i < length bytes.now) × (slice_index bytes.now i ≡ 10) × (next : ℕ) × (more : ℕ) × Leads (λ s. bytes_taken schema.now s (take (i + 1) bytes.now)) progress.number progress.len line.old base.old next more line.new base.new) }
{
    let mut at = progress;
    for &byte in bytes {
        at = take_byte(to, at, byte, line, schema, base)?;
    }
    Ok(at)
}

// Reads to the end of the input, and takes the bytes of each read, whichever they are. A proved loop has to end, and nothing says that
// the input does: so its turns are counted, and no run uses them up. A read that fails brings no bytes.
fn read_all<R: Read, W: Write>(
    from: &mut R,
    to: &mut W,
    line: &mut [u8],
    schema: &[u8],
    base: &mut [u8],
) -> io::Result<Progress>
    requires { length line.old ≡ 129 }
    ensures len_bound { IfOk result (λ r. r.len ≤ 129) }
    ensures stands { IfOk result (λ r. (bytes : List ℕ) × StandsAt (bytes_taken schema.now (begun base.old) bytes) r.number r.len line.new base.new × Appends (W.contents to.old) (W.contents to.new) (bytes_printed schema.now (begun base.old) bytes) × Consumes (R.remaining from.old) (R.remaining from.new) bytes × (length bytes < 2 ^ 64 - 1 → IsAtEnd (R.remaining from.new))) }
    ensures stood { OnErr result ((bytes : List ℕ) × (number : ℕ) × (len : ℕ) × StandsAt (bytes_taken schema.now (begun base.old) bytes) number len line.new base.new) }
{
    let mut progress = Progress { number: 1, len: 0 };
    let mut buffer = [0u8; 4096];
    for _turn in 0..u64::MAX {
        let n = from.read(&mut buffer)?;
        if n == 0 {
            return Ok(progress);
        }
        progress = take_bytes(to, progress, &buffer[..n], line, schema, base)?;
    }
    Ok(progress)
}

// A last line without newline counts; nothing after the last newline is no line.
fn last_line<W: Write>(
    to: &mut W,
    progress: Progress,
    line: &[u8],
    schema: &[u8],
    base: &mut [u8],
) -> io::Result<()>
    requires { (length line.now ≡ 129) × (progress.len ≤ 129) }
    ensures last { (s : Stand) → StandsAt s progress.number progress.len line.now base.old → base.new ≡ (last_reply schema.now s).base }
    ensures written { OnOk result ((s : Stand) → StandsAt s progress.number progress.len line.now base.old → Appends (W.contents to.old) (W.contents to.new) (last_reply schema.now s).printed) }
    ensures at_line { OnErr result (progress.len ≢ 0) }
{
    let number = progress.number;
    let len = progress.len;
    if len != 0 {
        return end_line(to, number, &line[..len], schema, base);
    }
    Ok(())
}

// The program, from any reader to any writer.
fn run<R: Read, W: Write>(from: &mut R, to: &mut W) -> io::Result<()>
    ensures written { OnOk result (IfSome (R.remaining from.old) (λ input. length input < 2 ^ 64 - 1 → Appends (W.contents to.old) (W.contents to.new) (small_session input))) }
{
    let schema = console::small::schema();
    let mut base = [0u8; 1024];
    console::small::format(&schema, &mut base);
    let mut line = [0u8; 129];
    let progress = read_all(from, to, &mut line, &schema, &mut base)?;
    last_line(to, progress, &line, &schema, &mut base)
}

fn main(rt: HostRuntime) -> io::Result<()> {
    let mut from = rt.stdin();
    let mut to = rt.stdout();
    run(&mut from, &mut to)
}
