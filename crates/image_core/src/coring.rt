ghost use Rattle.std.specs.Prelude.{◌≡◌, ◌≤◌, ℕ, IfErr, IfOk, OnErr, OnOk};
ghost use Rattle.image_core.specs.Cores.{IsFront, IsStopped, IsUnwritten, IsWritten};
ghost use Rattle.image_core.specs.Ready.{IsReady};

use crate::counting::{Tally, count_image};
use crate::heads::{put_back, put_front, write_loads};
use crate::opening::{open, read_info};
use crate::pages::write_pages;
use crate::stop::Stop;
use byte_streams::Sink;
use image_check::Report;
use image_pages::frames::{Frames, Numbers};
use page_core::Page;
use sector_disk::Disk;
use std::alloc::Global;

/// An image whose page frames were counted, and which is open to be read again.
#[derive(Drop)]
struct Ready {
    tally: Tally,
    info: Page,
    numbers: Numbers,
    frames: Frames,
}

/// Writes the core file of the image of the area whose header lies in block `header`, up to the first named block that
/// has findings. The image is read four times: for its info page, for its numbers to count their runs, for its numbers
/// to write the program headers, and then whole for the pages. Nothing is flushed.
pub fn write_core<D: Disk, S: Sink, R: Report>(
    alloc: Global,
    disk: &mut D,
    header: u32,
    out: &mut S,
    report: &mut R,
) -> Result<(), Stop>
    ensures written { OnOk result (IsWritten (D.content disk.old) (D.block_count disk.old) header
        (D.faults disk.old) (D.faults disk.new) (S.taken out.old) (S.taken out.new)) }
    ensures told { OnOk result (R.told report.new ≡ R.told report.old) }
    ensures stopped { IfErr result (IsStopped (D.content disk.old) (D.block_count disk.old) header
        (D.faults disk.old) (D.faults disk.new) (R.told report.old) (R.told report.new)
        (S.faults out.old) (S.faults out.new)) }
    ensures front { OnErr result (IsFront (D.content disk.old) header (S.taken out.old) (S.taken out.new)) }
    ensures unwritten { IfErr result (IsUnwritten (S.taken out.old) (S.taken out.new)) }
    ensures counted { S.faults out.old ≤ S.faults out.new }
    ensures content { D.content disk.new ≡ D.content disk.old }
    ensures faults { D.faults disk.old ≤ D.faults disk.new }
    ensures orders { D.orders disk.new ≡ D.orders disk.old }
    ensures blocks { D.block_count disk.new ≡ D.block_count disk.old }
{
    let mut ready = make_ready(alloc, disk, header, report)?;
    write(&mut ready, disk, out, report)
}

/// Counts the page frames of an image, and opens it to read them again.
fn make_ready<D: Disk, R: Report>(
    alloc: Global,
    disk: &mut D,
    header: u32,
    report: &mut R,
) -> Result<Ready, Stop>
    ensures ready { IfOk result (IsReady (D.content disk.old) (D.block_count disk.old) header) }
    ensures told { OnOk result (R.told report.new ≡ R.told report.old) }
    ensures stopped { IfErr result (IsStopped (D.content disk.old) (D.block_count disk.old) header
        (D.faults disk.old) (D.faults disk.new) (R.told report.old) (R.told report.new) 0 0) }
    ensures content { D.content disk.new ≡ D.content disk.old }
    ensures faults { D.faults disk.old ≤ D.faults disk.new }
    ensures orders { D.orders disk.new ≡ D.orders disk.old }
    ensures blocks { D.block_count disk.new ≡ D.block_count disk.old }
{
    let tally = count_image(alloc, disk, header, report)?;
    let info = read_info(alloc, disk, header, report)?;
    let numbers: Numbers = open(alloc, disk, header, report)?;
    let frames: Frames = open(alloc, disk, header, report)?;
    Ok(Ready {
        tally,
        info,
        numbers,
        frames,
    })
}

/// Writes the core file of an image.
fn write<D: Disk, S: Sink, R: Report>(
    ready: &mut Ready,
    disk: &mut D,
    out: &mut S,
    report: &mut R,
) -> Result<(), Stop>
    requires { (header : ℕ) × IsReady (D.content disk.old) (D.block_count disk.old) header ready.old }
    ensures written { (header : ℕ) → IsReady (D.content disk.old) (D.block_count disk.old) header ready.old →
        OnOk result (IsWritten (D.content disk.old) (D.block_count disk.old) header
        (D.faults disk.old) (D.faults disk.new) (S.taken out.old) (S.taken out.new)) }
    ensures told { OnOk result (R.told report.new ≡ R.told report.old) }
    ensures stopped { (header : ℕ) → IsReady (D.content disk.old) (D.block_count disk.old) header ready.old →
        IfErr result (IsStopped (D.content disk.old) (D.block_count disk.old) header
        (D.faults disk.old) (D.faults disk.new) (R.told report.old) (R.told report.new)
        (S.faults out.old) (S.faults out.new)) }
    ensures front { (header : ℕ) → IsReady (D.content disk.old) (D.block_count disk.old) header ready.old →
        OnErr result (IsFront (D.content disk.old) header (S.taken out.old) (S.taken out.new)) }
    ensures late { IfErr result (IsUnwritten (S.taken out.old) (S.taken out.new)) }
    ensures counted { S.faults out.old ≤ S.faults out.new }
    ensures content { D.content disk.new ≡ D.content disk.old }
    ensures faults { D.faults disk.old ≤ D.faults disk.new }
    ensures orders { D.orders disk.new ≡ D.orders disk.old }
    ensures blocks { D.block_count disk.new ≡ D.block_count disk.old }
{
    put_front(&ready.info, ready.tally.runs, out)?;
    write_loads(&mut ready.numbers, ready.tally, disk, out, report)?;
    put_back(&ready.info, ready.tally.runs, out)?;
    write_pages(&mut ready.frames, ready.tally, disk, out, report)
}
