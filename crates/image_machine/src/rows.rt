ghost use Rattle.std.specs.Prelude.{◌≡◌, ◌+◌, ◌*◌, ◌<◌, ◌≤◌, ◌↔◌, not, ◌&&◌, IsTrue};
ghost use Rattle.std.specs.List.{find, range_with_len};
ghost use Rattle.definitions.specs.Zones.{numbers, top};
ghost use Rattle.plain_machine.specs.Machine.{table_len};
ghost use Rattle.image_machine.specs.Rows.{is_clear, is_unsaved, lie_apart, lowest_row};

use definitions::ENTRIES_PER_FRAME;
use frame_sets::{Bitmap, Zones};

/// Returns how many page frames a table with `entries` entries takes.
pub(crate) fn table_len(entries: u32) -> u32
    ensures { result ≡ table_len entries }
{
    entries.div_ceil(ENTRIES_PER_FRAME)
}

/// Returns the first page frame of the lowest row of `len` valid page frames, none of which was saved or lies in the
/// row `other`.
pub(crate) fn lowest_row(zones: &Zones, saved: &Bitmap, len: u32, other: (u32, u32)) -> Option<u32>
    requires len { len ≤ 128 }
    ensures { result ≡ lowest_row zones.now saved.now.members len other }
{
    (0..zones.top()).find(|&first| lie_apart((first, len), other)
        && is_clear(zones, saved, first, len))
}

/// Returns whether each page frame of a row is valid and wasn't saved.
fn is_clear(zones: &Zones, saved: &Bitmap, first: u32, len: u32) -> bool
    requires { first + len ≤ 131072 }
    ensures { result ≡ is_clear zones.now saved.now.members len first }
{
    (first..first + len).all(|p| is_unsaved(zones, saved, p))
}

/// Returns whether a page frame is valid and wasn't saved.
pub(crate) fn is_unsaved(zones: &Zones, saved: &Bitmap, p: u32) -> bool
    ensures { result ≡ is_unsaved zones.now saved.now.members p }
{
    zones.valid(p) && !saved.has(p)
}

/// Returns whether one of two rows, each given by its first page frame and its length, lies below the other.
fn lie_apart(a: (u32, u32), b: (u32, u32)) -> bool
    ensures { result ≡ lie_apart a b }
{
    let end = |row: (u32, u32)| u64::from(row.0) + u64::from(row.1);
    end(a) <= u64::from(b.0) || end(b) <= u64::from(a.0)
}
