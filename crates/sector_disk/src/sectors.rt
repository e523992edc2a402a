//! The sectors of a disk in memory.
ghost use Rattle.std.specs.Prelude.{◌≡◌, ◌+◌, ◌-◌, ◌*◌, ◌^◌, ◌<◌, ◌≤◌, [], ◌++◌, length, replicate, IfOk, All};
ghost use Rattle.std.specs.Prelude.{vec_len, vec_capacity};
ghost use Rattle.std.specs.List.{concat};
ghost use Rattle.std.specs.Simd.{first_chunks};
ghost use Rattle.sector_disk.specs.Sectors.{IsPicked, IsPickedFrom, TakesPicked, TakesPage, SameOutsideBlock};
ghost use Rattle.sector_disk.specs.Sectors.{SameOutsideRange, padded};

use definitions::SECTOR_SIZE;
use page_core::{NoMemory, Page};
use std::alloc::Global;

pub type Sector = [u8; SECTOR_SIZE];

pub const SECTORS_IN_BLOCK: usize = 8;

/// The sectors of a block of zeros.
pub const ZEROS: [Sector; SECTORS_IN_BLOCK] = [[0; SECTOR_SIZE]; SECTORS_IN_BLOCK];

/// Returns room for `count` sectors. The memory is allocated but not touched.
pub fn room_for(alloc: Global, count: usize) -> Result<Vec<Sector>, NoMemory>
    ensures empty { IfOk result (λ sectors. sectors.items ≡ []) }
    ensures room { IfOk result (λ sectors. count ≤ vec_capacity sectors) }
{
    Vec::with_capacity(alloc, count).map_err(|_| NoMemory)
}

/// Adds sectors of zeros until there are `end`. They fit the room.
pub fn fill_up(sectors: &mut Vec<Sector>, end: usize)
    requires more { vec_len sectors.old ≤ end }
    requires room { end ≤ vec_capacity sectors.old }
    ensures filled { sectors.new.items ≡ sectors.old.items ++
        replicate (end - length sectors.old.items) (replicate SECTOR_SIZE 0) }
    ensures room { vec_capacity sectors.old ≤ vec_capacity sectors.new }
{
    match sectors.resize(end, [0; SECTOR_SIZE]) {
        Ok(()) => {}
        Err(_) => unreachable!(),
    }
}

/// Copies `from` into the first sectors of `into`, and fills the others with zeros.
pub fn copy_first(from: &[Sector], into: &mut [Sector])
    requires { length from.now ≤ length into.old }
    ensures { into.new ≡ padded (length into.old) from.now }
{
    into[..from.len()].copy_from_slice(from);
    for s in from.len()..into.len() {
        into[s] = [0; SECTOR_SIZE];
    }
}

/// Reads the page that the sectors of a block make.
pub fn read_block(sectors: &[Sector], into: &mut Page)
    requires { length sectors.now ≡ 8 }
    ensures { into.new ≡ concat sectors.now }
{
    into.copy_from_slice(sectors.as_flattened());
}

/// Returns the sectors of a page.
pub fn sectors_of(page: &Page) -> &[Sector]
    ensures sectors { result.now ≡ first_chunks SECTOR_SIZE 8 page.now }
    ensures whole { All (λ bytes. length bytes ≡ SECTOR_SIZE) result.now }
{
    page.as_bytes().as_chunks::<SECTOR_SIZE>().0
}

/// Copies the sectors that are picked. `first` is the number of the first sector.
pub fn copy_picked(from: &[Sector], into: &mut [Sector], first: usize, pick: u64)
    requires same_length { length from.now ≡ length into.old }
    requires in_range { first + length from.now < 2 ^ 64 }
    ensures picked { IsPickedFrom first pick into.old from.now into.new }
    ensures whole { All (λ bytes. length bytes ≡ SECTOR_SIZE) into.new }
{
    for (s, sector) in from.iter().enumerate() {
        if (pick >> ((first + s) % 64)) & 1 == 1 {
            into[s] = *sector;
        }
    }
}

/// Writes a page into the sectors of block `b`.
pub fn write_block(sectors: &mut [Sector], b: usize, page: &Page)
    requires { 8 * b + 8 ≤ length sectors.old }
    ensures others { SameOutsideBlock b sectors.old sectors.new }
    ensures within { TakesPage b page.now sectors.new }
    ensures whole { All (λ bytes. length bytes ≡ SECTOR_SIZE) sectors.new }
{
    let first = SECTORS_IN_BLOCK * b;
    sectors[first..first + SECTORS_IN_BLOCK].copy_from_slice(sectors_of(page));
}

/// Writes a page into the sectors of block `b` that are picked.
pub fn write_picked(sectors: &mut [Sector], b: usize, page: &Page, pick: u64)
    requires { 8 * b + 8 ≤ length sectors.old }
    ensures others { SameOutsideBlock b sectors.old sectors.new }
    ensures within { TakesPicked pick b page.now sectors.old sectors.new }
    ensures whole { All (λ bytes. length bytes ≡ SECTOR_SIZE) sectors.new }
{
    let first = SECTORS_IN_BLOCK * b;
    copy_picked(
        sectors_of(page),
        &mut sectors[first..first + SECTORS_IN_BLOCK],
        first,
        pick,
    );
}

/// Makes the live sectors durable. Outside the range from `low` to `high` they are durable already.
pub fn sync_sectors(durable: &mut [Sector], live: &[Sector], low: usize, high: usize)
    requires same_length { length durable.old ≡ length live.now }
    requires in_range { high ≤ length live.now }
    requires outside { SameOutsideRange low high durable.old live.now }
    ensures { durable.new ≡ live.now }
{
    if low < high {
        durable[low..high].copy_from_slice(&live[low..high]);
    }
}

/// Takes the live bytes of the picked sectors and the durable bytes of the others, and makes them both live and
/// durable. Outside the range from `low` to `high` the two are the same already.
pub fn restart_sectors(
    durable: &mut [Sector],
    live: &mut [Sector],
    low: usize,
    high: usize,
    pick: u64,
)
    requires same_length { length durable.old ≡ length live.old }
    requires in_range { high ≤ length live.old }
    requires outside { SameOutsideRange low high durable.old live.old }
    ensures picked { IsPicked pick durable.old live.old live.new }
    ensures durable { durable.new ≡ live.new }
    ensures whole { All (λ bytes. length bytes ≡ SECTOR_SIZE) live.new }
{
    if low < high {
        copy_picked(&live[low..high], &mut durable[low..high], low, pick);
        live[low..high].copy_from_slice(&durable[low..high]);
    }
}
