ghost use Rattle.std.specs.Prelude.{◌≡◌, ℕ, ◌+◌, ◌-◌, ◌*◌, ◌/◌, ◌%◌, ◌<◌, ◌≤◌, ◌↔◌, ◌^◌, IsTrue, MatchOption, IfOk};
ghost use Rattle.std.specs.Prelude.{All, length, vec_len, min};
ghost use Rattle.frame_sets.specs.Bits.{bit_of, AllClear, IsFirstBit, ChangesBit, IsEmptyBlock, HasFirstBits};

use definitions::WORDS_PER_PAGE;
use page_core::NoMemory;
use std::alloc::Global;

/// The words of a block: 32768 bits, one for each of its page frames.
pub const WORDS: usize = WORDS_PER_PAGE as usize;

/// Returns whether bit `k` is 1.
pub fn has_bit(block: &[u64; WORDS], k: usize) -> bool
    requires { k < 32768 }
    ensures { IsTrue result ↔ (bit_of block.now k ≡ 1) }
{
    block[k / 64] & (1 << (k % 64)) != 0
}

/// Sets bit `k` to 1, and returns whether it was 0.
pub fn set_bit(block: &mut [u64; WORDS], k: usize) -> bool
    requires { k < 32768 }
    ensures was { IsTrue result ↔ (bit_of block.old k ≡ 0) }
    ensures after { ChangesBit k 1 block.old block.new }
{
    let mask = 1 << (k % 64);
    let word = &mut block[k / 64];
    let was_clear = *word & mask == 0;
    *word |= mask;
    was_clear
}

/// Sets bit `k` to 0, and returns whether it was 1.
pub fn clear_bit(block: &mut [u64; WORDS], k: usize) -> bool
    requires { k < 32768 }
    ensures was { IsTrue result ↔ (bit_of block.old k ≡ 1) }
    ensures after { ChangesBit k 0 block.old block.new }
{
    let mask = 1 << (k % 64);
    let word = &mut block[k / 64];
    let was_set = *word & mask != 0;
    *word &= !mask;
    was_set
}

/// Returns the first bit from `from` on that is 1. Skips words without one as a whole.
pub fn first_bit(block: &[u64; WORDS], from: usize) -> Option<usize>
    requires { from < 32768 }
    ensures { MatchOption result (AllClear block.now from 32768) (IsFirstBit block.now from) }
{
    let head = block[from / 64] & (u64::MAX << (from % 64));
    if head != 0 {
        return Some(from / 64 * 64 + head.trailing_zeros() as usize);
    }
    for word in from / 64 + 1..WORDS {
        if block[word] != 0 {
            return Some(64 * word + block[word].trailing_zeros() as usize);
        }
    }
    None
}

/// Returns a block whose bits are all 0.
fn empty_block() -> [u64; WORDS]
    ensures { IsEmptyBlock result }
{
    [0; WORDS]
}

/// Makes `count` blocks whose bits are all 0.
pub fn empty_blocks(alloc: Global, count: usize) -> Result<Vec<[u64; WORDS]>, NoMemory>
    ensures count { IfOk result (λ blocks. vec_len blocks ≡ count) }
    ensures empty { IfOk result (λ blocks. All IsEmptyBlock blocks.items) }
{
    let mut blocks = Vec::with_capacity(alloc, count).map_err(|_| NoMemory)?;
    for _ in 0..count {
        blocks.push(empty_block()).map_err(|_| NoMemory)?;
    }
    Ok(blocks)
}

/// Sets every bit to 0.
pub fn clear_blocks(blocks: &mut [[u64; WORDS]])
    ensures { All IsEmptyBlock blocks.new }
{
    for block in blocks.iter_mut() {
        *block = empty_block();
    }
}

/// Sets the first `count` bits to 1, and the others to 0.
pub fn fill_first(block: &mut [u64; WORDS], count: usize)
    requires { count ≤ 32768 }
    ensures { HasFirstBits count block.new }
{
    for word in 0..WORDS {
        block[word] = first_ones(count.saturating_sub(64 * word));
    }
}

/// Returns the word whose first `count` bits are 1, or all its bits if it has no more.
fn first_ones(count: usize) -> u64
    ensures { result ≡ 2 ^ min count 64 - 1 }
{
    if count < 64 {
        (1 << count) - 1
    } else {
        u64::MAX
    }
}
