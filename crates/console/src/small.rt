// The small store: its schema and its data base.
ghost use Rattle.std.specs.Prelude.{◌≡◌};
ghost use Rattle.cases.specs.Small.{small_schema};
ghost use Rattle.calls.specs.Outcome.{outcome};
ghost use Rattle.console.specs.Console.{format_call};

use blocks::Check;
use terms::{BlockNo, Reference};

// "BOTL: K 4, D 4, R 5. PNTS: D 4, R 6, one path BOTLLKPT."
pub fn schema() -> [u8; 512]
    ensures { result ≡ small_schema 6 }
{
    let mut s = [0u8; 512];
    octets::copy_in(&mut s, 0, b"\x01\x01\x01");
    octets::copy_in(&mut s, 16, b"BOTL\x01\x00\x00\x04\x00\x00\x00\x05\x04");
    octets::copy_in(&mut s, 64, b"PNTS\x02\x01\x00\x04\x00\x00\x00\x06");
    octets::copy_in(&mut s, 80, b"PT");
    blocks::seal(&mut s, BlockNo(0), Check::Sum);
    s
}

// Formats a data base, as the program does before line 1.
pub fn format(schema: &[u8], base: &mut [u8])
    ensures { base.new ≡ (outcome (format_call schema.now base.old)).base }
{
    let mut area = [0u8; 8];
    store::call(
        b"FORMT",
        b"    ",
        Reference(0),
        b"        ",
        &schema[..0],
        &mut area,
        schema,
        base,
    );
}
