ghost use Rattle.std.specs.Prelude.{◌≡◌, ◌≤◌, ◌↔◌, ◌*◌, ◌/◌, IfOk, IfSome, IsOk, OnOk, OnErr, length, min};
ghost use Rattle.definitions.specs.Disk.{raised, HasRisen};
ghost use Rattle.std.specs.Fd.{file_raw_fd};
ghost use Rattle.file_disk.specs.FileDisk.{IsNewFileDisk, IsNoStream};

use crate::lock::{lock_exclusive, lock_shared};
use image_format::AreaKind;
use kernel_use::is_in_use;
use page_core::{Failed, Page};
use sector_disk::{Disk, Order, Orders};
use std::fs::{File, Metadata, OpenFile, OpenOptions};
use std::io::{self, ErrorKind, Seek, SeekFrom};
use std::os::fd::AsRawFd;
use std::os::unix::fs::{FileExt, FileTypeExt, MetadataExt};
use std::rt::Files;

const BLOCK_SIZE: u64 = 4096;

/// The last descriptor of a standard stream.
const LAST_STREAM: i32 = 2;

/// A disk in a file or on a block device. The number of its blocks is its length divided by 4096.
///
/// It stays locked as long as it is kept (flock(2)): exclusively if it may be written, else shared with other readers.
///
/// It tells neither content nor moments: what a file does at a power cut is not known here. A restart and an arm
/// change nothing.
#[derive(Drop)]
pub struct FileDisk<F> {
    file: F,
    blocks: u32,
    calls: u64,
    faults: u64,
    orders: Orders,
    /// Whether the next block read is the first one, of a disk that may be written.
    is_cached: bool,
}

/// The calls that a disk allows.
#[derive(Clone, Copy, PartialEq, Eq)]
pub(crate) enum Access {
    Read,
    ReadAndWrite,
}

impl FileDisk<File> {
    /// Opens a file or a block device for reading and writing, and locks it. It is refused if another process has
    /// locked it or the kernel uses it.
    ///
    /// Anything but a file or a block device is refused before it is opened, since opening a FIFO would block.
    pub fn open<R: Files<File = File> + Alloc + Clone + Drop>(
        rt: &R,
        path: &str,
    ) -> io::Result<FileDisk<File>>
        ensures new { IfOk result IsNewFileDisk }
        ensures no_stream { IfOk result (λ disk. IsNoStream (file_raw_fd disk.file)) }
    {
        let found = kind_at(rt, path)?;
        refuse_used(rt, &found)?;
        let file = OpenOptions::new().read(true).write(true).open(rt, path)?;
        lock_exclusive(&file)?;
        // It may have come into use before it was locked.
        refuse_used(rt, &found)?;
        FileDisk::over(file, &found, Access::ReadAndWrite)
    }

    /// Opens a file or a block device for reading only: each write fails. It is refused if another process has locked
    /// it exclusively, and, before it is opened, if it is neither a file nor a block device.
    pub fn open_read_only<R: Files<File = File>>(rt: &R, path: &str) -> io::Result<FileDisk<File>>
        ensures new { IfOk result IsNewFileDisk }
        ensures no_stream { IfOk result (λ disk. IsNoStream (file_raw_fd disk.file)) }
    {
        let found = kind_at(rt, path)?;
        let file = OpenOptions::new().read(true).open(rt, path)?;
        lock_shared(&file)?;
        FileDisk::over(file, &found, Access::Read)
    }
}

impl<F: FileExt + Seek + OpenFile + AsRawFd + Drop> FileDisk<F> {
    /// Makes a disk over an open file, which must be the one that was found at its path, and not a standard stream:
    /// what the program prints must not reach the disk. The length of a device is known only from the position of its
    /// end.
    pub(crate) fn over(mut file: F, found: &Metadata, access: Access) -> io::Result<FileDisk<F>>
        ensures new { IfOk result IsNewFileDisk }
        ensures no_stream { IfOk result (λ disk. IfSome (F.raw_fd disk.file) IsNoStream) }
        ensures blocks { IfSome (F.stream_position file) (λ _. IfSome (F.stream_bytes file) (λ bytes.
            IfOk result (λ disk. disk.blocks ≡ min (length bytes / 4096) 4294967295))) }
    {
        let opened = file.metadata()?;
        if opened.dev() != found.dev() || opened.ino() != found.ino() {
            return Err(ErrorKind::NotFound.into());
        }
        let blocks = file.seek(SeekFrom::End(0))? / BLOCK_SIZE;
        if file.as_raw_fd() <= LAST_STREAM {
            return Err(ErrorKind::InvalidInput.into());
        }
        Ok(FileDisk {
            file,
            blocks: u32::try_from(blocks).unwrap_or(u32::MAX),
            calls: 0,
            faults: 0,
            orders: Orders::new(),
            is_cached: access == Access::ReadAndWrite,
        })
    }

    /// Reads a block. The first one that is read from a disk that may be written is written back and synced if it is a
    /// header block.
    ///
    /// After a sync that failed, Linux takes what it has in memory for what the disk has, and returns that. So the fact
    /// that a command relies on, whether an image exists, is brought to the disk before the command does anything.
    fn read_block(&mut self, b: u32, into: &mut [u8; 4096]) -> io::Result<()>
        ensures calls { self.new.calls ≡ self.old.calls }
        ensures faults { self.new.faults ≡ self.old.faults }
        ensures orders { self.new.orders.list ≡ self.old.orders.list }
        ensures blocks { self.new.blocks ≡ self.old.blocks }
    {
        self.file.read_exact_at(into, offset_of(b))?;
        if self.is_cached {
            if is_header(into) {
                self.file.write_all_at(into, offset_of(b))?;
                self.file.sync_all()?;
            }
            self.is_cached = false;
        }
        Ok(())
    }

    /// Counts a call, and a failure if it failed.
    fn count(&mut self, answer: io::Result<()>) -> Result<(), Failed>
        ensures calls { self.new.calls ≡ raised self.old.calls }
        ensures faults { self.old.faults ≤ self.new.faults }
        ensures same { IsOk result ↔ IsOk answer }
        ensures no_fault { OnOk result (self.new.faults ≡ self.old.faults) }
        ensures cause { OnErr result (HasRisen self.old.faults self.new.faults) }
        ensures orders { self.new.orders.list ≡ self.old.orders.list }
        ensures blocks { self.new.blocks ≡ self.old.blocks }
    {
        self.calls = self.calls.saturating_add(1);
        match answer {
            Ok(()) => Ok(()),
            Err(_) => {
                self.faults = self.faults.saturating_add(1);
                Err(Failed)
            }
        }
    }
}

/// Returns what is at a path, if that is a regular file or a block device.
fn kind_at<R: Files>(rt: &R, path: &str) -> io::Result<Metadata> {
    let found = rt.metadata(path)?;
    let kind = found.file_type();
    if kind.is_file() || kind.is_block_device() {
        Ok(found)
    } else {
        Err(ErrorKind::InvalidInput.into())
    }
}

/// Refuses a file or device that the kernel uses.
fn refuse_used<R: Files + Alloc + Clone + Drop>(rt: &R, found: &Metadata) -> io::Result<()> {
    if is_in_use(rt, found)? {
        return Err(ErrorKind::ResourceBusy.into());
    }
    Ok(())
}

/// Returns the offset of a block in bytes.
fn offset_of(b: u32) -> u64
    ensures { result ≡ 4096 * b }
{
    BLOCK_SIZE * u64::from(b)
}

/// Returns whether a block ends with the signature of a swap area or of an image.
fn is_header(block: &[u8; 4096]) -> bool {
    !matches!(
        AreaKind::read(&Page::from_bytes(block)),
        AreaKind::Other { .. }
    )
}

impl<F: FileExt + Seek + OpenFile + AsRawFd + Drop> Disk for FileDisk<F> {
    ghost use Rattle.std.specs.Prelude.{None, false};
    ghost use Rattle.std.proofs.lemmas.Bool.{false≢true};

    ghost block_count = { λ d. d.blocks };

    ghost faults = { λ d. d.faults };

    ghost calls = { λ d. d.calls };

    ghost orders = { λ d. d.orders.list };

    ghost content = { λ _. None };

    ghost tells_moments = { λ _. false };

    ghost moment = { λ _. 0 };

    ghost left_since = { λ _ _ _. ⊥ };

    ghost well_formed = { λ _. tt };

    ghost tells_content = { λ d tells. absurd (false≢true tells) };

    ghost counts_now = { λ d t v tells. absurd (false≢true tells) };

    ghost only_now = { λ d v tells. absurd (false≢true tells) };

    fn blocks(&self) -> u32 {
        self.blocks
    }

    fn read(&mut self, b: u32, into: &mut Page) -> Result<(), Failed> {
        let mut bytes = [0; 4096];
        let answer = self.read_block(b, &mut bytes);
        into.copy_from_slice(&bytes);
        self.count(answer)
    }

    fn write(&mut self, b: u32, from: &Page) -> Result<(), Failed> {
        let answer = self.file.write_all_at(from.as_bytes(), offset_of(b));
        self.count(answer)
    }

    fn sync(&mut self) -> Result<(), Failed> {
        let answer = self.file.sync_all();
        self.count(answer)
    }

    fn restart(&mut self, pick: u64) {
        self.orders = self.orders.and(&Order::Restart { pick });
    }

    fn arm(&mut self, first: u32, count: u32, pick: u64) {
        self.orders = self.orders.and(&Order::Arm { first, count, pick });
    }
}
