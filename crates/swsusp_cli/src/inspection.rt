ghost use Rattle.std.specs.Prelude.{◌≡◌, ◌+◌, ◌≤◌, ◌++◌, [], ◌∷◌, length, codes};
ghost use Rattle.definitions.specs.Disk.{HasRisen};
ghost use Rattle.command_kit.specs.Causes.{HasCause};
ghost use Rattle.command_kit.specs.Told.{unread};
ghost use Rattle.command_kit.specs.AnswerOf.{told_by};
ghost use Rattle.swsusp_cli.specs.Run.{area_text, hw_text, image_text, inspected, refused};
ghost use Rattle.swsusp_cli.specs.Run.{IsInspected, calls_for};

use byte_streams::Line;
use command_kit::{Answer, Status};
use image_format::{AreaKind, Mark};
use page_core::Page;
use plain_machine::NoSwap;
use script::put_no_swap;
use sector_disk::Disk;

/// Reads a block, and says what it means as the header of an area. A block that the disk doesn't have counts as zeros,
/// and isn't read.
pub fn inspect<D: Disk>(disk: &mut D, offset: u32) -> Answer
    ensures answer { IsInspected offset (D.block_count disk.old) (D.content disk.old) (D.faults disk.old)
        (D.faults disk.new) (told_by result) }
    ensures cause { HasCause ⊥ (HasRisen (D.faults disk.old) (D.faults disk.new)) result.status }
    ensures content { D.content disk.new ≡ D.content disk.old }
    ensures calls { D.calls disk.new ≡ calls_for offset (D.block_count disk.old) (D.calls disk.old) }
    ensures orders { D.orders disk.new ≡ D.orders disk.old }
{
    let mut page = Page::zero();
    if offset < disk.blocks() {
        if disk.read(offset, &mut page).is_err() {
            return unread();
        }
    }
    told_of(&AreaKind::read(&page))
}

fn unread() -> Answer
    ensures told { told_by result ≡ unread }
    ensures status { result.status ≡ Status.Device }
{
    let mut note = Line::new();
    note.put(b"read fault same\n");
    Answer {
        status: Status::Device,
        out: Line::new(),
        note,
    }
}

fn told_of(kind: &AreaKind) -> Answer
    ensures told { told_by result ≡ inspected kind.now }
    ensures cause { HasCause ⊥ ⊥ result.status }
{
    match kind {
        AreaKind::Swap(area) => done(area_line(area.last, area.count)),
        AreaKind::Image(mark) => done(image_line(mark)),
        AreaKind::Old => refused(NoSwap::Old),
        AreaKind::Other { sig } => refused(NoSwap::Signature { sig: *sig }),
        AreaKind::BadArea { why } => refused(NoSwap::from(*why)),
    }
}

fn done(out: Line) -> Answer
    ensures told { told_by result ≡ record { status = Status.Done; out = out; note = [] } }
    ensures status { result.status ≡ Status.Done }
{
    Answer {
        status: Status::Done,
        out,
        note: Line::new(),
    }
}

fn refused(why: NoSwap) -> Answer
    ensures told { told_by result ≡ refused why }
    ensures status { result.status ≡ Status.Refused }
{
    let mut note = Line::new();
    put_no_swap(&mut note, &why);
    note.put(b"\n");
    Answer {
        status: Status::Refused,
        out: Line::new(),
        note,
    }
}

fn put_area(line: &mut Line, last: u32, bad: u32)
    requires { length line.old ≡ 0 }
    ensures text { line.new ≡ area_text last bad }
    ensures len { length line.new ≤ 60 }
{
    line.put(b"area last ");
    line.put_number(u64::from(last));
    line.put(b" bad ");
    line.put_number(u64::from(bad));
}

fn area_line(last: u32, bad: u32) -> Line
    ensures { result ≡ area_text last bad ++ codes " image none" ++ 10 ∷ [] }
{
    let mut line = Line::new();
    put_area(&mut line, last, bad);
    line.put(b" image none\n");
    line
}

fn image_line(mark: &Mark) -> Line
    ensures { result ≡ image_text mark.now ++ 10 ∷ [] }
{
    let mut line = Line::new();
    put_area(&mut line, mark.last, mark.count);
    line.put(b" image ");
    line.put_number(mark.first);
    line.put(b" flags ");
    line.put_number(u64::from(mark.flags));
    line.put(b" hw ");
    put_hw(&mut line, mark);
    line.put(b"\n");
    line
}

/// Adds the hardware signature, if the image carries one.
fn put_hw(line: &mut Line, mark: &Mark)
    requires { length line.old ≤ 160 }
    ensures added { line.new ≡ line.old ++ hw_text mark.now }
    ensures len { length line.new ≤ length line.old + 20 }
{
    if mark.flags & SF_HW_SIG == 0 {
        line.put(b"-");
    } else {
        line.put_number(u64::from(mark.hw_sig));
    }
}

/// An image that carries a hardware signature (kernel/power/power.h).
const SF_HW_SIG: u32 = 8;
