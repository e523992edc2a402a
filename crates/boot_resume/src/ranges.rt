//! The ranges of page frames that are memory.
ghost use Rattle.std.specs.Prelude.{◌≡◌, ◌↔◌, None};
ghost use Rattle.boot_resume.specs.Memory.{AreApart};
ghost use Rattle.boot_resume.specs.Ranges.{misplaced};

use crate::machine::FrameRange;

/// Returns the first range that is empty or doesn't begin after the one before it.
pub(crate) fn first_misplaced(memory: &[FrameRange]) -> Option<usize>
    ensures none { (result ≡ None) ↔ AreApart memory.now }
    ensures first { result ≡ misplaced 0 0 memory.now }
{
    let mut floor = 0;
    for (index, range) in memory.iter().enumerate() {
        if range.start < floor || range.end <= range.start {
            return Some(index);
        }
        floor = range.end;
    }
    None
}
