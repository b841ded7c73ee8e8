// "FORMT zeroes everything and sets the checks." What the data base held before counts for nothing, its checks neither.
#![tactic(auto)]

ghost use Rattle.std.specs.Prelude.{◌≡◌, ◌*◌, ◌≤◌, length};
ghost use Rattle.octets.specs.Octets.{run, zeros};
ghost use Rattle.blocks.specs.declared.Check.{Check};
ghost use Rattle.blocks.specs.Blocks.{HasBlock, block_at, seal};
ghost use Rattle.plans.specs.Plan.{formatted};

use terms::BlockNo;

// "zeroes everything": the whole buffer at once.
fn clear(base: &mut [u8], blocks: u32)
    requires { length base.old ≡ blocks * 512 }
    ensures { base.new ≡ zeros (blocks * 512) }
{
    base.fill(0);
}

// The check of a block of zeros is the block's number, of whatever kind it is: no word needs to be summed.
fn seal_zeros(base: &mut [u8], n: BlockNo)
    requires has_block { HasBlock base.old n.0 }
    requires n_value { run base.old (block_at n.0) 512 ≡ zeros 512 }
    ensures { (k : Check) → base.new ≡ seal k base.old n.0 }
{
    blocks::put_check(base, n, n.0);
}

// "and sets the checks": block by block, of a data base that is all zero.
fn set_checks(base: &mut [u8], blocks: u32)
    requires { base.old ≡ zeros (blocks * 512) }
    ensures { (k : Check) → base.new ≡ formatted k blocks }
{
    for i in 0..blocks {
        seal_zeros(base, BlockNo(i));
    }
}

// The data base as FORMT leaves it, under every kind of check.
pub fn format(base: &mut [u8], blocks: u32)
    requires { (length base.old ≡ blocks * 512) × (blocks ≤ 4096) }
    ensures { (k : Check) → base.new ≡ formatted k blocks }
{
    clear(base, blocks);
    set_checks(base, blocks);
}
