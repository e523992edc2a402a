ghost use Rattle.std.specs.Prelude.{◌≡◌, ◌==◌, IfOk};
ghost use Rattle.std.specs.List.{position};
ghost use Rattle.plain_machine.specs.Fitting.{IsRange, AreRanges};
ghost use Rattle.script.specs.Shapes.{all_ranges, as_range, range_in};
ghost use Rattle.script.specs.Shapes.{texts};

use crate::fault::FaultKind;
use crate::words::number_of;
use plain_machine::Ranges;

/// The most ranges that a loader may have.
const MAX_RANGES: usize = 8;

/// The highest page frame number.
const LAST_FRAME: u64 = 65_535;

/// Reads the words as ranges of page frames.
pub fn ranges(words: &[&[u8]]) -> Result<Ranges, FaultKind>
    ensures ranges { result ≡ all_ranges (texts words.now) }
    ensures fits { IfOk result AreRanges }
{
    if words.len() > MAX_RANGES {
        return Err(FaultKind::Count);
    }
    let mut list = [(0, 0); MAX_RANGES];
    for (i, word) in words.iter().enumerate() {
        list[i] = range(word)?;
    }
    Ok(Ranges {
        count: words.len() as u32,
        list,
    })
}

/// Reads a range of page frames: its ends, with a dash between them.
#[tactic(auto, unfolding(crate::specs::Shapes::range_in))]
fn range(word: &[u8]) -> Result<(u32, u32), FaultKind>
    ensures range { result ≡ range_in word.now }
    ensures fits { IfOk result IsRange }
{
    let dash = dash(word).ok_or(FaultKind::Number)?;
    let low = number_of(&word[..dash]).ok_or(FaultKind::Number)?;
    let high = number_of(&word[dash + 1..]).ok_or(FaultKind::Number)?;
    ordered(low, high)
}

/// Returns where the first dash of a word stands.
fn dash(word: &[u8]) -> Option<usize>
    ensures { result ≡ position (λ b. b == 45) word.now }
{
    word.iter().position(|b| *b == b'-')
}

/// Returns the range of the page frames from `low` to `high`.
fn ordered(low: u64, high: u64) -> Result<(u32, u32), FaultKind>
    ensures range { result ≡ as_range (Some low) (Some high) }
    ensures fits { IfOk result IsRange }
{
    if high < low {
        return Err(FaultKind::Range);
    }
    if LAST_FRAME < high {
        return Err(FaultKind::Range);
    }
    Ok((low as u32, high as u32))
}
