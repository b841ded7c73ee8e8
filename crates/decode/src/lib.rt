// Decoding a schema: every rule that document 01 makes for it is judged, and what it says is laid out.
#![tactic(auto)]

ghost use Rattle.std.specs.Prelude.{◌≡◌};
ghost use Rattle.schema.specs.Decode.{decoded_schema};

use schema::Schema;

mod build;

// Decodes a schema buffer of any length: document 01's rules for the schema are judged, and what it says is given where it keeps them.
pub fn decode(s: &[u8]) -> Option<Schema>
    ensures { result ≡ decoded_schema s.now }
{
    if !rules::form(s) {
        return None;
    }
    build::decoded(s)
}
