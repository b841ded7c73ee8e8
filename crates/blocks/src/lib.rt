// Blocks of 512 bytes, each with its check in its last four. A block is handed on as a part of the data base. Here, and nowhere else, the
// number of a block becomes its place in the data base, and a place the number of its block.
#![tactic(auto)]

ghost use Rattle.std.specs.Prelude.{◌≡◌, length};
ghost use Rattle.octets.specs.Octets.{run, set_word};
ghost use Rattle.blocks.specs.declared.Check.TheVariants.{Sum};
ghost use Rattle.blocks.specs.Blocks.{HasBlock, block_at, block_with, check_at, check_by, check_of, is_sealed, seal};

use terms::BlockNo;

// The kinds of check. Every block of a data base has the same.
#[derive(Clone, Copy, PartialEq, Eq)]
pub enum Check {
    Sum,
}

impl From<u8> for Check {
    ghost from_gives = { λ number k. k ≡ check_by number };

    // The kind that a number asks for.
    fn from(number: u8) -> Check {
        Check::Sum
    }
}

// Where block n begins.
pub fn place_of(n: BlockNo) -> usize
    ensures { result ≡ block_at n.0 }
{
    (n.0 as usize) * 512
}

// The block that a place lies in.
pub fn block_with(at: u32) -> BlockNo
    ensures { result.0 ≡ block_with at }
{
    BlockNo(at / 512)
}

// The bytes of block n.
pub fn block(base: &[u8], n: BlockNo) -> &[u8]
    requires { HasBlock base.now n.0 }
    ensures { result.now ≡ run base.now (block_at n.0) 512 }
{
    let at = place_of(n);
    &base[at..at + 512]
}

// The sum of the block n's number and its first 127 words, of which `block` has the bytes.
fn sum(block: &[u8], n: BlockNo) -> u32
    requires { length block.now ≡ 512 }
    ensures { result ≡ check_of Sum block.now n.0 }
{
    octets::word_sum(&block[..508], n.0)
}

// The check of the block n, of which `block` has the bytes.
pub fn check_of(block: &[u8], n: BlockNo, k: Check) -> u32
    requires { length block.now ≡ 512 }
    ensures { result ≡ check_of k block.now n.0 }
{
    match k {
        Check::Sum => sum(block, n),
    }
}

// Is block n's check true?
pub fn sealed(base: &[u8], n: BlockNo, k: Check) -> bool
    requires { HasBlock base.now n.0 }
    ensures { result ≡ is_sealed k base.now n.0 }
{
    let part = block(base, n);
    octets::word(part, 508) == check_of(part, n, k)
}

// Stores v as block n's check.
pub fn put_check(base: &mut [u8], n: BlockNo, v: u32)
    requires { HasBlock base.old n.0 }
    ensures { base.new ≡ set_word base.old (check_at n.0) v }
{
    let at = place_of(n);
    octets::put_word(&mut base[at..at + 512], 508, v);
}

// Sets block n's check anew.
pub fn seal(base: &mut [u8], n: BlockNo, k: Check)
    requires { HasBlock base.old n.0 }
    ensures { base.new ≡ seal k base.old n.0 }
{
    let v = check_of(block(base, n), n, k);
    put_check(base, n, v);
}
