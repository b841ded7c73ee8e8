// What a line asks for: the parameters of its call, each from its field.
ghost use Rattle.std.specs.Prelude.{◌≡◌, false, ◌≤◌, length, MatchOption};
ghost use Rattle.console.specs.Console.{six_fields, well_made};
ghost use Rattle.calls.specs.Outcome.{IsOutcome};
ghost use Rattle.console.specs.Asked.{WellMade, call_asked};

use crate::lines::{end_of, field, name, operation, part};
use crate::references::reference;
use ends::Answer;
use terms::Reference;

#[derive(Clone, Copy)]
pub struct Asked<'a> {
    pub operation: [u8; 5],
    pub set: [u8; 4],
    pub reference: Reference,
    pub path: [u8; 8],
    pub key: &'a [u8],
    pub area: &'a [u8],
}

// Has the line six fields?
pub fn six_fields(line: &[u8]) -> bool
    requires { length line.now ≤ 128 }
    ensures { result ≡ six_fields line.now }
{
    end_of(line, 5) == line.len()
}

impl<'a> Asked<'a> {
    // What a line asks for, if it is well made.
    pub fn parse(line: &'a [u8]) -> Option<Asked<'a>>
        ensures { MatchOption result (well_made line.now ≡ false) (WellMade line.now) }
    {
        if line.len() > 128 || !six_fields(line) {
            return None;
        }
        let operation = operation(field(line, 0))?;
        let set = name(field(line, 1))?;
        let reference = reference(field(line, 2))?;
        let path = name(field(line, 3))?;
        let key = part(field(line, 4))?;
        let area = part(field(line, 5))?;
        Some(Asked {
            operation,
            set,
            reference,
            path,
            key,
            area,
        })
    }

    // The call, with this area.
    pub fn call(&self, area: &mut [u8], schema: &[u8], base: &mut [u8]) -> Answer
        ensures { IsOutcome (call_asked self.now area.old schema.now base.old) (record { status = result.status; reference = result.reference.0; area = area.new; base = base.new }) }
    {
        store::call(
            &self.operation,
            &self.set,
            self.reference,
            &self.path,
            self.key,
            area,
            schema,
            base,
        )
    }
}
