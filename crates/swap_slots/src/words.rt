//! Sets of numbers as bits: number k is bit k mod 64 of word k / 64.
ghost use Rattle.std.specs.Prelude.{◌≡◌, ℕ, ◌+◌, ◌*◌, ◌/◌, ◌%◌, ◌^◌, ◌<◌, ◌≤◌, ◌↔◌, IsTrue, MatchOption, length};
ghost use Rattle.swap_slots.specs.Bits.{bit_of, AllClear, IsClearWord, IsFirstBit, ChangesBit};

/// Returns whether bit `k` is 1.
pub fn has_bit(words: &[u64], k: usize) -> bool
    requires { k < 64 * length words.now }
    ensures { IsTrue result ↔ (bit_of words.now k ≡ 1) }
{
    words[k / 64] & (1 << (k % 64)) != 0
}

/// Sets bit `k` to 1, and returns whether it was 0.
pub fn set_bit(words: &mut [u64], k: usize) -> bool
    requires { k < 64 * length words.old }
    ensures was { IsTrue result ↔ (bit_of words.old k ≡ 0) }
    ensures after { ChangesBit k 1 words.old words.new }
{
    let mask = 1 << (k % 64);
    let word = &mut words[k / 64];
    let was_clear = *word & mask == 0;
    *word |= mask;
    was_clear
}

/// Sets bit `k` to 0, and returns whether it was 1.
pub fn clear_bit(words: &mut [u64], k: usize) -> bool
    requires { k < 64 * length words.old }
    ensures was { IsTrue result ↔ (bit_of words.old k ≡ 1) }
    ensures after { ChangesBit k 0 words.old words.new }
{
    let mask = 1 << (k % 64);
    let word = &mut words[k / 64];
    let was_set = *word & mask != 0;
    *word &= !mask;
    was_set
}

/// Returns whether no bit of word `w` is 1.
pub fn is_clear_word(words: &[u64], w: usize) -> bool
    requires { w < length words.now }
    ensures { IsTrue result ↔ IsClearWord words.now w }
{
    words[w] == 0
}

/// Returns the first bit from word `from` on that is 1. Skips words without one as a whole.
pub fn first_bit(words: &[u64], from: usize) -> Option<usize>
    requires { 64 * length words.now < 2 ^ 64 }
    ensures { MatchOption result (AllClear words.now (64 * from) (64 * length words.now))
        (IsFirstBit words.now (64 * from)) }
{
    for w in from..words.len() {
        if words[w] != 0 {
            return Some(64 * w + words[w].trailing_zeros() as usize);
        }
    }
    None
}
