// The store for C: a static library with one export, the call of the same name in `store`.
#![tactic(auto)]

ghost use Rattle.calls.specs.Call.{call_of};
ghost use Rattle.calls.specs.Word.{IsWord};

#[unsafe(no_mangle)]
pub extern "C" fn yarugota_call(
    op: &[u8; 5],
    set: &[u8; 4],
    reference: u32,
    path: &[u8; 8],
    key: &[u8],
    area: &mut [u8],
    schema: &[u8],
    base: &mut [u8],
) -> u64
    ensures { IsWord (call_of op.now set.now reference path.now key.now area.old schema.now base.old) result area.new base.new }
{
    store::yarugota_call(op, set, reference, path, key, area, schema, base)
}
