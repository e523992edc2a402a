ghost use Rattle.std.specs.Prelude.{◌≡◌, ◌+◌, ◌<◌, ◌≤◌, ◌^◌, ℕ, List, Option, [], IfErr, IfSome, OnErr, OnOk};
ghost use Rattle.definitions.specs.Disk.{HasRisen, as_it_reads};
ghost use Rattle.definitions.specs.Streams.{TakesAll, TakesFront};
ghost use Rattle.elf_core.specs.Elf.{back_bytes, front_bytes};
ghost use Rattle.image_pages.specs.Chain.{chain_page};
ghost use Rattle.image_pages.specs.Formats.{chain_format};
ghost use Rattle.image_pages.specs.Numbered.{HasNumbered};
ghost use Rattle.image_core.specs.Cores.{IsStopped, IsUnwritten};
ghost use Rattle.image_core.specs.Counted.{HasTallied};
ghost use Rattle.image_core.specs.Identity.{identity_of, machine_of};
ghost use Rattle.image_core.specs.Parts.{HasLoads, loads_of};

use crate::counting::Tally;
use crate::loads::Loads;
use crate::machines::machine_of;
use crate::stop::Stop;
use byte_streams::{Sink, put_all};
use elf_core::{file_header, note, note_header, padding, page_offset, section};
use image_check::Report;
use image_pages::frames::{NextNumber, Numbers};
use page_core::{Failed, Page};
use sector_disk::Disk;

/// The number of bytes of an info page that say whose image it is.
const IDENTITY: usize = 396;

/// Writes what precedes the program headers of the runs.
pub(crate) fn put_front<S: Sink>(info: &Page, runs: u32, out: &mut S) -> Result<(), Failed>
    ensures whole { OnOk result
        (TakesAll (front_bytes (machine_of info.now) runs) (S.taken out.old) (S.taken out.new)) }
    ensures front { TakesFront (front_bytes (machine_of info.now) runs) (S.taken out.old) (S.taken out.new) }
    ensures counted { S.faults out.old ≤ S.faults out.new }
    ensures cause { OnErr result (HasRisen (S.faults out.old) (S.faults out.new)) }
{
    put_all(out, file_header(machine_of(info), runs).as_bytes())?;
    put_all(out, note_header(runs).as_bytes())
}

/// Writes what comes between the program headers and the pages.
pub(crate) fn put_back<S: Sink>(info: &Page, runs: u32, out: &mut S) -> Result<(), Failed>
    requires { runs + 1 < 2 ^ 32 }
    ensures whole { OnOk result
        (TakesAll (back_bytes (identity_of info.now) runs) (S.taken out.old) (S.taken out.new)) }
    ensures front { TakesFront (back_bytes (identity_of info.now) runs) (S.taken out.old) (S.taken out.new) }
    ensures counted { S.faults out.old ≤ S.faults out.new }
    ensures cause { OnErr result (HasRisen (S.faults out.old) (S.faults out.new)) }
{
    put_all(out, note(&info.as_bytes()[..IDENTITY]).as_bytes())?;
    put_all(out, section(runs).as_bytes())?;
    put_all(out, &Page::zero().as_bytes()[..padding(runs)])
}

/// Writes the program headers of the runs of an image's page frames.
pub(crate) fn write_loads<D: Disk, S: Sink, R: Report>(
    numbers: &mut Numbers,
    tally: Tally,
    disk: &mut D,
    out: &mut S,
    report: &mut R,
) -> Result<(), Stop>
    requires { (header : ℕ) × (HasNumbered (D.content disk.old) (D.block_count disk.old) header numbers.old []
        × HasTallied (D.content disk.old) header tally) }
    ensures listed { (header : ℕ) →
        HasNumbered (D.content disk.old) (D.block_count disk.old) header numbers.old [] →
        HasTallied (D.content disk.old) header tally →
        OnOk result (HasLoads (D.content disk.old) header tally (S.taken out.old) (S.taken out.new)) }
    ensures told { OnOk result (R.told report.new ≡ R.told report.old) }
    ensures front { (header : ℕ) →
        HasNumbered (D.content disk.old) (D.block_count disk.old) header numbers.old [] →
        HasTallied (D.content disk.old) header tally →
        OnErr result (IfSome (D.content disk.old) (λ held.
        TakesFront (loads_of (chain_format (as_it_reads held) header) (chain_page (as_it_reads held) header))
        (S.taken out.old) (S.taken out.new))) }
    ensures stopped { (header : ℕ) →
        HasNumbered (D.content disk.old) (D.block_count disk.old) header numbers.old [] →
        HasTallied (D.content disk.old) header tally →
        IfErr result (IsStopped (D.content disk.old) (D.block_count disk.old) header
        (D.faults disk.old) (D.faults disk.new) (R.told report.old) (R.told report.new)
        (S.faults out.old) (S.faults out.new)) }
    ensures late { (old new : Option (List ℕ)) → IfErr result (IsUnwritten old new) }
    ensures counted { S.faults out.old ≤ S.faults out.new }
    ensures content { D.content disk.new ≡ D.content disk.old }
    ensures faults { D.faults disk.old ≤ D.faults disk.new }
    ensures orders { D.orders disk.new ≡ D.orders disk.old }
    ensures blocks { D.block_count disk.new ≡ D.block_count disk.old }
{
    let mut loads = Loads::new(page_offset(tally.runs));
    for _ in 0..tally.frames {
        match numbers.next(disk, report) {
            NextNumber::Frame(number) => loads.add(number, out)?,
            NextNumber::End => return Err(Stop::Changed),
            NextNumber::Refused => return Err(Stop::Refused),
        }
    }
    let count = loads.count();
    loads.end(out)?;
    if count == tally.runs {
        Ok(())
    } else {
        Err(Stop::Changed)
    }
}
