ghost use Rattle.std.specs.Prelude.{◌≡◌, ◌<◌, ◌≤◌, ◌++◌, ℕ, List, length, filter, IfOk, OnOk};
ghost use Rattle.std.specs.List.{Contains, range_with_len};
ghost use Rattle.definitions.specs.FreeRuns.{runs_of};
ghost use Rattle.definitions.specs.Tables.{frame};
ghost use Rattle.definitions.specs.Zones.{numbers, top, zone_end};
ghost use Rattle.definitions.specs.ZoneFacts.{IsZone};
ghost use Rattle.dump_core.specs.Cores.{is_told, told_runs};

use crate::runs::add_number;
use bitflags::Flags;
use frame_table::{PageFlags, entry};
use machine::Dump;
use page_core::NoMemory;
use std::alloc::Global;

/// Returns the runs of page frames that go into the core file of a dump, in ascending order: the first page frame of
/// each, and the number of its page frames.
pub fn told_runs(alloc: Global, dump: &Dump) -> Result<Vec<(u32, u32)>, NoMemory>
    requires { length dump.now.frames ≡ top dump.now.hw.zones }
    ensures { IfOk result (λ runs. runs.items ≡ told_runs dump.now.hw dump.now.frames) }
{
    let mut runs = Vec::new(alloc);
    for &zone in dump.hw.zones().as_slice() {
        add_zone(dump, zone, &mut runs)?;
    }
    Ok(runs)
}

/// Adds the page frames of a zone to the runs of those below it.
fn add_zone(dump: &Dump, zone: (u32, u32), runs: &mut Vec<(u32, u32)>) -> Result<(), NoMemory>
    requires size { length dump.now.frames ≡ top dump.now.hw.zones }
    requires zone { IsZone zone }
    requires valid { (p : ℕ) → zone.0 ≤ p → p < zone_end zone → Contains (numbers dump.now.hw.zones) p }
    ensures { (below : List ℕ) → runs.old.items ≡ runs_of below → OnOk result (runs.new.items ≡
        runs_of (below ++ filter (is_told dump.now.hw dump.now.frames) (range_with_len zone.0 zone.1))) }
{
    let (start, count) = zone;
    for p in start..start + count {
        if is_told(dump, p) {
            add_number(runs, p)?;
        }
    }
    Ok(())
}

/// Returns whether a valid page frame goes into the core file: it is in use, or holds a byte other than zero.
fn is_told(dump: &Dump, p: u32) -> bool
    requires size { length dump.now.frames ≡ top dump.now.hw.zones }
    requires valid { Contains (numbers dump.now.hw.zones) p }
    ensures { result ≡ is_told dump.now.hw dump.now.frames p }
{
    dump.hw.is_hardware();
    let (flags, _) = entry(&dump.frames, dump.hw.frame_table(), p);
    !flags.intersects(PageFlags::FREE) || !dump.frames.is_zero(p)
}
