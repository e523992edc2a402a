ghost use Rattle.std.specs.Prelude.{◌≡◌, ◌≤◌, ◌<◌, ◌++◌, List, ℕ, [], IfOk, IfErr, IsTrue, OnErr, OnOk};
ghost use Rattle.std.specs.Prelude.{length, vec_len};
ghost use Rattle.definitions.specs.Disk.{HasRisen};
ghost use Rattle.definitions.specs.Streams.{HandsOut, IsUsedUp};
ghost use Rattle.plain_machine.specs.Replies.{line_of};
ghost use Rattle.image_format.specs.declared.signature.area.Area.{Area};
ghost use Rattle.stream_in.specs.Session.{IsFed, TakesInto};
ghost use Rattle.stream_in.specs.Stops.{IsDiskStop};
ghost use Rattle.stream_in.specs.Holding.{AreOfMap};
ghost use Rattle.command_kit.specs.AnswerOf.{told_by};
ghost use Rattle.swsusp_cli.specs.Imports.{ImportsInside};
ghost use Rattle.swsusp_cli.specs.Feeding.{Feeds, IsOfDisk, IsOfSource, KeepsHeaders, TakesToEnd};
ghost use Rattle.swsusp_cli.specs.Imports.{Ends, Imports, imported_told, kind_text, stop_told, stream_told};
ghost use Rattle.swsusp_cli.specs.Causes.{HasCauseIn};
ghost use Rattle.command_kit.specs.Causes.{HasCause};
ghost use Rattle.command_kit.specs.View.{disk_view, view};

use crate::replay::unread;
use byte_streams::{Line, Sink, Source};
use command_kit::{Answer, Status, no_memory};
use page_core::{Failed, NoMemory};
use plain_machine::Reply;
use script::line_of;
use sector_disk::Disk;
use std::alloc::Global;
use stream_in::{InStop, Kind, StreamFault, StreamIn};
use thiserror::Error;

/// The number of bytes of the stream that are read at a time.
const PIECE: usize = 65536;

/// The number of bytes of the longest stream: the pages of 65,536 page frames, 128 pages of their numbers, and the info
/// page.
const MOST_BYTES: usize = 4096 * 65665;

/// Why no image was imported.
#[derive(Clone, Copy, Debug, PartialEq, Eq, Error)]
pub enum ImportStop {
    #[error("the source failed")]
    Source,
    /// The area, the stream or the disk is in the way.
    #[error("{0}")]
    Session(InStop),
}

impl From<InStop> for ImportStop {
    ghost use Rattle.swsusp_cli.specs.declared.importing.ImportStop.TheVariants as stop;

    ghost from_gives = { λ why result. result ≡ stop.Session why };

    fn from(why: InStop) -> ImportStop {
        ImportStop::Session(why)
    }
}

impl From<NoMemory> for ImportStop {
    ghost use Rattle.stream_in.specs.declared.stop.InStop.TheVariants as in_stop;
    ghost use Rattle.swsusp_cli.specs.declared.importing.ImportStop.TheVariants as stop;

    ghost from_gives = { λ _ result. result ≡ stop.Session in_stop.NoMemory };

    fn from(why: NoMemory) -> ImportStop {
        ImportStop::Session(InStop::from(why))
    }
}

/// Reads a stream, writes it into the area at the disk's first blocks as it comes, and marks it there as an image.
#[inline(never)]
pub fn import_stream<I: Source, O: Sink, N: Sink, D: Disk>(
    alloc: Global,
    input: &mut I,
    out: &mut O,
    note: &mut N,
    disk: &mut D,
) -> Status
    ensures outcome { Imports
        (view I.Source O.Sink N.Sink D.Disk input.old out.old note.old disk.old)
        (view I.Source O.Sink N.Sink D.Disk input.new out.new note.new disk.new) result }
    ensures cause { HasCauseIn
        (view I.Source O.Sink N.Sink D.Disk input.old out.old note.old disk.old)
        (view I.Source O.Sink N.Sink D.Disk input.new out.new note.new disk.new) result }
    ensures inside { IsTrue (D.tells_moments disk.old) → ImportsInside (I.remaining input.old) (I.remaining input.new)
        (D.moment disk.old) (D.moment disk.new) (D.left_since disk.old) (D.left_since disk.new) }
{
    match import_image(alloc, input, disk) {
        Ok(n) => imported(n).tell(out, note),
        Err(ImportStop::Source) => unread(note),
        Err(ImportStop::Session(stop)) => not_imported(stop).tell(out, note),
    }
}

/// Imports an image, and returns how many pages were saved. All memory is taken before the disk is called.
fn import_image<I: Source, D: Disk>(
    alloc: Global,
    input: &mut I,
    disk: &mut D,
) -> Result<u32, ImportStop>
    ensures ends { Ends (I.remaining input.old) (I.remaining input.new)
        (disk_view D.Disk disk.old)
        (disk_view D.Disk disk.new) result }
    ensures device { IfErr result (λ stop. IsOfDisk stop → HasRisen (D.faults disk.old) (D.faults disk.new)) }
    ensures source { IfErr result (λ stop. IsOfSource stop → HasRisen (I.faults input.old) (I.faults input.new)) }
    ensures inside { IsTrue (D.tells_moments disk.old) → ImportsInside (I.remaining input.old) (I.remaining input.new)
        (D.moment disk.old) (D.moment disk.new) (D.left_since disk.old) (D.left_since disk.new) }
{
    let mut piece = empty_piece(alloc)?;
    let mut session = StreamIn::open(alloc, disk)?;
    feed_input(&mut session, &mut piece, input, disk)?;
    Ok(session.finish(disk)?)
}

fn empty_piece(alloc: Global) -> Result<Vec<u8>, NoMemory>
    ensures { IfOk result (λ piece. 0 < vec_len piece) }
{
    match Vec::from_elem(alloc, 0, PIECE) {
        Ok(piece) => Ok(piece),
        Err(_) => Err(NoMemory),
    }
}

/// Feeds a session the input, piece by piece, to its end.
fn feed_input<I: Source, D: Disk>(
    session: &mut StreamIn,
    piece: &mut [u8],
    input: &mut I,
    disk: &mut D,
) -> Result<(), ImportStop>
    requires session { (free : List ℕ) × IsFed free [] session.old }
    requires piece { 0 < length piece.old }
    requires blocks { D.block_count disk.old ≡ session.old.blocks }
    ensures feeds { (free : List ℕ) → IsFed free [] session.old → AreOfMap session.old.map free →
        Feeds free session.old session.new (I.remaining input.old) (I.remaining input.new)
        (disk_view D.Disk disk.old)
        (disk_view D.Disk disk.new) result }
    ensures device { IfErr result (λ stop. IsOfDisk stop → HasRisen (D.faults disk.old) (D.faults disk.new)) }
    ensures source { IfErr result (λ stop. IsOfSource stop → HasRisen (I.faults input.old) (I.faults input.new)) }
    ensures headers { IsTrue (D.tells_moments disk.old) → (area : Area) (free : List ℕ) →
        TakesInto area free [] session.old →
        KeepsHeaders (D.moment disk.old) (D.moment disk.new) (D.left_since disk.old) (D.left_since disk.new) }
    ensures ready { (area : Area) (free : List ℕ) → TakesInto area free [] session.old → OnOk result
        (TakesToEnd area free session.new (I.remaining input.old) (I.remaining input.new) (D.content disk.old)
        (D.content disk.new)) }
    ensures telling { D.tells_moments disk.new ≡ D.tells_moments disk.old }
{
    let mut taken = 0;
    'pieces: loop {
        let count = match read_piece(input, piece, MOST_BYTES + 1 - taken) {
            Ok(count) => count,
            Err(Failed) => return Err(ImportStop::Source),
        };
        if count == 0 {
            return Ok(());
        }
        session.feed(disk, &piece[..count])?;
        taken += count;
    }
}

/// Reads some bytes into a piece, at most `most`, and returns how many came: 0 at the end of input.
fn read_piece<I: Source>(input: &mut I, piece: &mut [u8], most: usize) -> Result<usize, Failed>
    requires some { 0 < length piece.old }
    requires room { 0 < most }
    ensures count { IfOk result (λ k. k ≤ length piece.new) }
    ensures few { IfOk result (λ k. k ≤ most) }
    ensures bytes { IfOk result (λ k. HandsOut k piece.new (I.remaining input.old) (I.remaining input.new)) }
    ensures end { IfOk result (λ k. k ≡ 0 → IsUsedUp (I.remaining input.new)) }
    ensures failed { OnErr result (I.remaining input.new ≡ I.remaining input.old) }
    ensures counted { I.faults input.old ≤ I.faults input.new }
    ensures cause { OnErr result (HasRisen (I.faults input.old) (I.faults input.new)) }
{
    let room = piece.len().min(most);
    input.read(&mut piece[..room])
}

/// Returns the answer after the import of an image of `n` saved pages.
fn imported(n: u32) -> Answer
    ensures told { told_by result ≡ imported_told n }
    ensures status { result.status ≡ Status.Done }
{
    let mut out = Line::new();
    out.put(b"imported ");
    out.put_number(u64::from(n));
    out.put(b"\n");
    Answer {
        status: Status::Done,
        out,
        note: Line::new(),
    }
}

/// Returns the answer if no image was imported.
fn not_imported(stop: InStop) -> Answer
    ensures told { told_by result ≡ stop_told stop }
    ensures cause { HasCause ⊥ (IsDiskStop stop) result.status }
{
    match stop {
        InStop::NoMemory => no_memory(),
        InStop::NoSwap(why) => noted(Status::Refused, &Reply::NoSwap { why }),
        InStop::NoSlots { free, need } => noted(Status::Refused, &Reply::NoSlots { free, need }),
        InStop::Stream(fault) => no_stream(fault),
        InStop::ReadFault(left) => noted(Status::Device, &Reply::ReadFault { left }),
        InStop::WriteFault(left) => noted(Status::Device, &Reply::WriteFault { left }),
        InStop::SyncFault(left) => noted(Status::Device, &Reply::SyncFault { left }),
    }
}

/// Returns an answer with the line of a reply as a note.
fn noted(status: Status, reply: &Reply) -> Answer
    ensures told { told_by result ≡ record { status = status; out = []; note = line_of reply.now } }
    ensures status { result.status ≡ status }
{
    let mut note = Line::new();
    line_of(reply, &mut note);
    Answer {
        status,
        out: Line::new(),
        note,
    }
}

/// Returns the answer to an input that is no stream.
fn no_stream(fault: StreamFault) -> Answer
    ensures told { told_by result ≡ stream_told fault }
    ensures status { result.status ≡ Status.Input }
{
    let mut note = Line::new();
    note.put(b"stream ");
    put_kind(&mut note, fault.kind);
    note.put_number(fault.at);
    note.put(b"\n");
    Answer {
        status: Status::Input,
        out: Line::new(),
        note,
    }
}

/// Adds a kind of fault, and what its place counts.
fn put_kind(line: &mut Line, kind: Kind)
    requires { length line.old ≡ 7 }
    ensures added { line.new ≡ line.old ++ kind_text kind }
    ensures len { length line.new ≤ 20 }
{
    line.put(match kind {
        Kind::Counts => b"Counts byte ",
        Kind::Pfn => b"Pfn byte ",
        Kind::Order => b"Order byte ",
        Kind::End => b"End byte ",
        Kind::Extra => b"Extra byte ",
        Kind::Short => b"Short byte ",
    });
}
