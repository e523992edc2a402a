ghost use Rattle.std.specs.Prelude.{◌≡◌, IfOk};
ghost use Rattle.script.specs.Shapes.{all_numbers, number_in, number_of, texts, AllWithin};

use crate::fault::FaultKind;

/// The numbers that a place may have: the lowest one and the highest one.
#[derive(Clone, Copy)]
pub struct Span(pub u64, pub u64);

/// Reads a word of decimal digits as a number of at most 64 bits. Leading zeros are allowed.
pub fn number_of(word: &[u8]) -> Option<u64>
    ensures { result ≡ number_of word.now }
{
    if word.is_empty() {
        return None;
    }
    let mut number: u64 = 0;
    for b in word {
        if !b.is_ascii_digit() {
            return None;
        }
        let digit = u64::from(*b - b'0');
        number = number.checked_mul(10)?.checked_add(digit)?;
    }
    Some(number)
}

/// Reads a word as a number of this span.
#[tactic(auto, unfolding(crate::specs::Shapes::number_in))]
fn number_in(word: &[u8], span: Span) -> Result<u64, FaultKind>
    ensures { result ≡ number_in span word.now }
{
    let n = number_of(word).ok_or(FaultKind::Number)?;
    if n < span.0 {
        return Err(FaultKind::Range);
    }
    if span.1 < n {
        return Err(FaultKind::Range);
    }
    Ok(n)
}

/// Reads the words as numbers, each of its span.
pub fn numbers<const N: usize>(words: &[&[u8]], spans: [Span; N]) -> Result<[u64; N], FaultKind>
    ensures numbers { result ≡ all_numbers spans.entry (texts words.now) }
    ensures within { IfOk result (AllWithin spans.entry) }
{
    if words.len() != N {
        return Err(FaultKind::Count);
    }
    let mut numbers = [0; N];
    for (i, word) in words.iter().enumerate() {
        numbers[i] = number_in(word, spans[i])?;
    }
    Ok(numbers)
}
