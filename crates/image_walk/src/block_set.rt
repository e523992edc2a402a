//! A set of blocks: a bit for each block of a disk, in words of 64 bits.
ghost use Rattle.std.specs.Prelude.{◌≡◌, ℕ, ◌*◌, ◌<◌, false, length};
ghost use Rattle.image_walk.specs.BlockSets.{has_block, AddsBlock};

/// Returns whether a set has a block.
pub(crate) fn has_block(words: &[u64], block: u32) -> bool
    requires { block < 64 * length words.now }
    ensures { result ≡ has_block words.now block }
{
    let mask = 1 << (block % 64);
    words[block as usize / 64] & mask != 0
}

/// Adds a block to a set.
pub(crate) fn add_block(words: &mut [u64], block: u32)
    requires { block < 64 * length words.old }
    ensures added { AddsBlock block words.old words.new }
    ensures room { length words.new ≡ length words.old }
{
    let index = block as usize / 64;
    let mask = 1 << (block % 64);
    let word = words[index];
    words[index] = word | mask;
}

/// Removes every block from a set.
pub(crate) fn clear(words: &mut [u64])
    ensures empty { (b : ℕ) → has_block words.new b ≡ false }
    ensures room { length words.new ≡ length words.old }
{
    words.fill(0);
}
