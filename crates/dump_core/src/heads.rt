ghost use Rattle.std.specs.Prelude.{◌≡◌, ◌≤◌, ◌<◌, ◌^◌, ◌+◌, ◌*◌, All, length, OnErr, OnOk};
ghost use Rattle.definitions.specs.Disk.{HasRisen};
ghost use Rattle.definitions.specs.Streams.{TakesAll, TakesFront};
ghost use Rattle.definitions.specs.Zones.{zone_end};
ghost use Rattle.elf_core.specs.Elf.{back_bytes, front_bytes, head_bytes, load_bytes, loads_bytes};
ghost use Rattle.dump_core.specs.Cores.{identity_bytes, machine_of};

use crate::identity::{identity_bytes, machine_of};
use byte_streams::{Sink, put_all};
use definitions::Ident;
use elf_core::{file_header, load, note, note_header, padding, page_offset, section};
use page_core::{Failed, Page};

/// The number of bytes of a page.
const PAGE_SIZE: u64 = 4096;

/// Writes what precedes the pages of runs of page frames.
pub(crate) fn put_head<K: Sink>(
    ident: &Ident,
    runs: &[(u32, u32)],
    out: &mut K,
) -> Result<(), Failed>
    requires names { length ident.now.names ≡ 6 }
    requires each_name { All (λ name. length name ≡ 65) ident.now.names }
    requires few { length runs.now ≤ 65536 }
    requires each { All (λ run. zone_end run ≤ 65536) runs.now }
    ensures whole { OnOk result (TakesAll (head_bytes (machine_of ident.now) (identity_bytes ident.now) runs.now)
        (K.taken out.old) (K.taken out.new)) }
    ensures front { TakesFront (head_bytes (machine_of ident.now) (identity_bytes ident.now) runs.now)
        (K.taken out.old) (K.taken out.new) }
    ensures counted { K.faults out.old ≤ K.faults out.new }
    ensures cause { OnErr result (HasRisen (K.faults out.old) (K.faults out.new)) }
{
    let count = count_runs(runs);
    put_front(ident, count, out)?;
    put_loads(page_offset(count), runs, out)?;
    put_back(ident, count, out)
}

/// Returns how many runs there are.
fn count_runs(runs: &[(u32, u32)]) -> u32
    requires { length runs.now ≤ 65536 }
    ensures { result ≡ length runs.now }
{
    runs.len() as u32
}

/// Writes what precedes the program headers of `runs` runs.
fn put_front<K: Sink>(ident: &Ident, runs: u32, out: &mut K) -> Result<(), Failed>
    requires { length ident.now.names ≡ 6 }
    ensures whole { OnOk result
        (TakesAll (front_bytes (machine_of ident.now) runs) (K.taken out.old) (K.taken out.new)) }
    ensures front { TakesFront (front_bytes (machine_of ident.now) runs) (K.taken out.old) (K.taken out.new) }
    ensures counted { K.faults out.old ≤ K.faults out.new }
    ensures cause { OnErr result (HasRisen (K.faults out.old) (K.faults out.new)) }
{
    put_all(out, file_header(machine_of(ident), runs).as_bytes())?;
    put_all(out, note_header(runs).as_bytes())
}

/// Writes what comes between the program headers and the pages.
fn put_back<K: Sink>(ident: &Ident, runs: u32, out: &mut K) -> Result<(), Failed>
    requires names { length ident.now.names ≡ 6 }
    requires each_name { All (λ name. length name ≡ 65) ident.now.names }
    requires few { runs + 1 < 2 ^ 32 }
    ensures whole { OnOk result
        (TakesAll (back_bytes (identity_bytes ident.now) runs) (K.taken out.old) (K.taken out.new)) }
    ensures front { TakesFront (back_bytes (identity_bytes ident.now) runs) (K.taken out.old) (K.taken out.new) }
    ensures counted { K.faults out.old ≤ K.faults out.new }
    ensures cause { OnErr result (HasRisen (K.faults out.old) (K.faults out.new)) }
{
    put_all(out, note(identity_bytes(ident).as_slice()).as_bytes())?;
    put_all(out, section(runs).as_bytes())?;
    put_all(out, &Page::zero().as_bytes()[..padding(runs)])
}

/// Writes the program headers of runs whose pages lie from `start` on.
fn put_loads<K: Sink>(start: u64, runs: &[(u32, u32)], out: &mut K) -> Result<(), Failed>
    requires place { start < 2 ^ 40 }
    requires few { length runs.now ≤ 65536 }
    requires each { All (λ run. zone_end run ≤ 65536) runs.now }
    ensures whole { OnOk result (TakesAll (loads_bytes start runs.now) (K.taken out.old) (K.taken out.new)) }
    ensures front { TakesFront (loads_bytes start runs.now) (K.taken out.old) (K.taken out.new) }
    ensures counted { K.faults out.old ≤ K.faults out.new }
    ensures cause { OnErr result (HasRisen (K.faults out.old) (K.faults out.new)) }
{
    let mut offset = start;
    for &run in runs {
        put_load(&mut offset, run, out)?;
    }
    Ok(())
}

/// Writes the program header of a run whose pages lie from `offset` on, and moves `offset` to the pages of the next
/// run.
fn put_load<K: Sink>(offset: &mut u64, run: (u32, u32), out: &mut K) -> Result<(), Failed>
    requires { offset.old + 4096 * run.1 < 2 ^ 64 }
    ensures whole { OnOk result (TakesAll (load_bytes offset.old run.0 run.1) (K.taken out.old) (K.taken out.new)) }
    ensures front { TakesFront (load_bytes offset.old run.0 run.1) (K.taken out.old) (K.taken out.new) }
    ensures moved { offset.new ≡ offset.old + 4096 * run.1 }
    ensures counted { K.faults out.old ≤ K.faults out.new }
    ensures cause { OnErr result (HasRisen (K.faults out.old) (K.faults out.new)) }
{
    let (first, count) = (u64::from(run.0), u64::from(run.1));
    let header = load(*offset, first, count);
    *offset += PAGE_SIZE * count;
    put_all(out, header.as_bytes())
}
