ghost use Rattle.std.specs.Prelude.{◌≡◌, ◌≤◌, ℕ, [], OnErr, IfErr, IfOk};
ghost use Rattle.page_core.specs.declared.format.Format.TheVariants.{Plain};
ghost use Rattle.definitions.specs.Disk.{HasRisen};
ghost use Rattle.image_pages.specs.Stands.{Stands};
ghost use Rattle.image_stream.specs.Streamed.{IsFront, IsStopped, IsStreamed};

use crate::converting::convert;
use byte_streams::{Sink, put_all};
use image_check::Report;
use image_pages::{Next, Opened, Pages, Reader};
use page_core::{Failed, Format, NoMemory, Page};
use sector_disk::Disk;
use std::alloc::Global;
use thiserror::Error;

/// How far an image was written.
#[derive(Clone, Copy, Debug, PartialEq, Eq)]
pub enum Streamed {
    /// The header block, if the disk has it, isn't marked.
    NoImage,
    /// The header block, or the first named block that has findings, was refused; the findings were reported.
    Refused,
    Whole,
}

/// Why no more of an image was written.
#[derive(Clone, Copy, Debug, PartialEq, Eq, Error)]
pub enum Stop {
    #[error("the sink failed")]
    Sink,
    #[error("no memory")]
    Memory,
}

impl From<NoMemory> for Stop {
    ghost use Rattle.std.specs.Prelude.{◌≡◌};
    ghost use Rattle.image_stream.specs.declared.streaming.Stop.TheVariants.{Memory};

    ghost from_gives = { λ _ stop. stop ≡ Memory };

    fn from(_: NoMemory) -> Stop {
        Stop::Memory
    }
}

impl From<Failed> for Stop {
    ghost use Rattle.std.specs.Prelude.{◌≡◌};
    ghost use Rattle.image_stream.specs.declared.streaming.Stop.TheVariants.{Sink};

    ghost from_gives = { λ _ stop. stop ≡ Sink };

    fn from(_: Failed) -> Stop {
        Stop::Sink
    }
}

/// Writes the stream of the image of the area whose header lies in block `header`: its pages as they are read, up to
/// the first named block that has findings. Nothing is flushed.
pub fn stream<D: Disk, S: Sink, R: Report>(
    alloc: Global,
    disk: &mut D,
    header: u32,
    out: &mut S,
    report: &mut R,
) -> Result<Streamed, Stop>
    ensures streamed { IfOk result (IsStreamed (D.content disk.old) (D.block_count disk.old) header
        (D.faults disk.old) (D.faults disk.new) (R.told report.old) (R.told report.new)
        (S.taken out.old) (S.taken out.new)) }
    ensures stopped { IfErr result (IsStopped (D.content disk.old) (D.block_count disk.old) header
        (S.faults out.old) (S.faults out.new) (S.taken out.old) (S.taken out.new)) }
    ensures untold { OnErr result (R.told report.new ≡ R.told report.old) }
    ensures counted { S.faults out.old ≤ S.faults out.new }
    ensures content { D.content disk.new ≡ D.content disk.old }
    ensures faults { D.faults disk.old ≤ D.faults disk.new }
    ensures orders { D.orders disk.new ≡ D.orders disk.old }
    ensures blocks { D.block_count disk.new ≡ D.block_count disk.old }
{
    let mut pages = match Pages::open(alloc, disk, header, report)? {
        Opened::NoImage => return Ok(Streamed::NoImage),
        Opened::Refused => return Ok(Streamed::Refused),
        Opened::Open(pages) => pages,
    };
    match pages.format() {
        Format::Plain => Ok(write_pages(&mut pages, disk, out, report)?),
        Format::SkipZeros => convert(pages, disk, out, report),
    }
}

/// Writes the pages of an image as they are read.
fn write_pages<D: Disk, S: Sink, R: Report>(
    pages: &mut Pages,
    disk: &mut D,
    out: &mut S,
    report: &mut R,
) -> Result<Streamed, Failed>
    requires stands { (header : ℕ) × Stands (D.content disk.old) (D.block_count disk.old) header pages.old [] }
    requires plain { pages.old.format ≡ Plain }
    ensures streamed { (header : ℕ) → Stands (D.content disk.old) (D.block_count disk.old) header pages.old [] →
        IfOk result (IsStreamed (D.content disk.old) (D.block_count disk.old) header
        (D.faults disk.old) (D.faults disk.new) (R.told report.old) (R.told report.new)
        (S.taken out.old) (S.taken out.new)) }
    ensures stopped { (header : ℕ) → Stands (D.content disk.old) (D.block_count disk.old) header pages.old [] →
        OnErr result (IsFront (D.content disk.old) (D.block_count disk.old) header
        (S.taken out.old) (S.taken out.new)) }
    ensures untold { OnErr result (R.told report.new ≡ R.told report.old) }
    ensures cause { OnErr result (HasRisen (S.faults out.old) (S.faults out.new)) }
    ensures counted { S.faults out.old ≤ S.faults out.new }
    ensures content { D.content disk.new ≡ D.content disk.old }
    ensures faults { D.faults disk.old ≤ D.faults disk.new }
    ensures orders { D.orders disk.new ≡ D.orders disk.old }
    ensures blocks { D.block_count disk.new ≡ D.block_count disk.old }
{
    let mut page = Page::zero();
    loop {
        match pages.next(disk, report, &mut page) {
            Next::Page => put_all(out, page.as_bytes())?,
            Next::End => return Ok(Streamed::Whole),
            Next::Refused => return Ok(Streamed::Refused),
        }
    }
}
