ghost use Rattle.std.specs.Prelude.{◌≡◌, ◌^◌};
ghost use Rattle.command_words.specs.Words.{has_leading_zero, plain_number};

use script::number_of;

/// Reads a word of decimal digits without a leading zero as a number of 32 bits.
pub(crate) fn number(word: &str) -> Option<u32>
    ensures { result ≡ plain_number (2 ^ 32) word.now }
{
    if has_leading_zero(word.as_bytes()) {
        return None;
    }
    let number = number_of(word.as_bytes())?;
    if number > u64::from(u32::MAX) {
        return None;
    }
    Some(number as u32)
}

/// Returns whether there are several bytes and the first is a 0.
fn has_leading_zero(word: &[u8]) -> bool
    ensures { result ≡ has_leading_zero word.now }
{
    match word {
        [] => false,
        [_] => false,
        [first, ..] => *first == b'0',
    }
}
