//! What a reply says of an operation of the machine.
ghost use Rattle.std.specs.Prelude.{◌≡◌};
ghost use Rattle.run_picture.specs.Telling.{told_by};

use plain_machine::{Left, Reply, UndoCall};

/// What a reply says of the operation that makes a step, or of the one that is requested.
#[derive(Clone, Copy)]
pub(crate) enum Told {
    /// The operation has made `k` of `of` steps.
    More { k: u32, of: u32 },
    /// A resume has made k steps.
    Loading { k: u32 },
    /// A hibernation that had made k steps is being undone.
    Undo { call: UndoCall, k: u32 },
    Booted { image: bool },
    /// The image is on the disk, and the machine is off.
    Saved,
    /// The image is on the disk, and the machine sleeps.
    Slept,
    /// The machine runs, and no image is on the disk.
    Runs,
    NoImage,
    Compressed,
    /// A call of the disk failed.
    Fault { call: Failing, left: Left },
    /// A task's page was written to its slot.
    Written,
    /// A task's page was read from its slot.
    Fetched,
    Idle,
    Other,
}

/// The call of the disk that failed.
#[derive(Clone, Copy)]
pub(crate) enum Failing {
    Read,
    Write,
    Sync,
}

pub(crate) fn told_by(reply: &Reply) -> Told
    ensures { result ≡ told_by reply.now }
{
    match *reply {
        Reply::More { k, of } => Told::More { k, of },
        Reply::Loading { k } => Told::Loading { k },
        Reply::Undo { call, k } => Told::Undo { call, k },
        Reply::Booted { image } => Told::Booted { image },
        Reply::Hibernated { .. } => Told::Saved,
        Reply::Asleep { .. } => Told::Slept,
        Reply::Settled => Told::Runs,
        Reply::Woken => Told::Runs,
        Reply::Resumed { .. } => Told::Runs,
        Reply::NoImage => Told::NoImage,
        Reply::Compressed { .. } => Told::Compressed,
        Reply::ReadFault { left } => fault(Failing::Read, left),
        Reply::WriteFault { left } => fault(Failing::Write, left),
        Reply::SyncFault { left } => fault(Failing::Sync, left),
        Reply::Written { .. } => Told::Written,
        Reply::Fetched { .. } => Told::Fetched,
        Reply::Idle => Told::Idle,
        _ => Told::Other,
    }
}

fn fault(call: Failing, left: Left) -> Told
    ensures { result ≡ Told.Fault call left }
{
    Told::Fault { call, left }
}
