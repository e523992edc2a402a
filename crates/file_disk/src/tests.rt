ghost use Rattle.std.specs.Prelude.{◌≡◌, ◌<◌};

use crate::FileDisk;
use crate::file_disk::Access;
use crate::lock::has_no_locks;
use page_core::{Failed, Page};
use sector_disk::Disk;
use std::cell::Cell;
use std::fs;
use std::fs::{File, Metadata, OpenFile, OpenOptions};
use std::io::{self, ErrorKind, Seek, SeekFrom};
use std::os::fd::AsRawFd;
use std::os::unix::fs::FileExt;
use std::process::Abort;
use std::rt::Files;
use std::test::Fail;

const FOLDER: &str = "file_disk_file_test";

const DEVICES: &str = "devices";

const KEEPING: &str = "file_disk_keep_test";

const KEPT: &str = "file_disk_keep_test/disk";

#[test]
fn what_is_no_file_is_refused(rt: HostRuntime) -> Result<(), Fail> {
    let _ = fs::remove_dir_all(&rt, FOLDER);
    fs::create_dir(&rt, FOLDER)?;
    for path in [FOLDER, "/dev/null", "file_disk_file_test/none", ""] {
        assert!(rt; FileDisk::open_read_only(&rt, path).is_err(), "{path}");
        assert!(rt; FileDisk::open(&rt, path).is_err(), "{path}");
    }
    fs::remove_dir_all(&rt, FOLDER)?;
    Ok(())
}

#[test]
fn a_file_shorter_than_a_block_has_none(rt: HostRuntime) -> Result<(), Fail> {
    let folder = "file_disk_short_test";
    let path = "file_disk_short_test/short";
    let _ = fs::remove_dir_all(&rt, folder);
    fs::create_dir(&rt, folder)?;
    fs::File::create(&rt, path)?.set_len(4095)?;
    assert_eq!(rt; FileDisk::open_read_only(&rt, path)?.blocks(), 0);
    assert_eq!(rt; FileDisk::open(&rt, path)?.blocks(), 0);
    fs::remove_dir_all(&rt, folder)?;
    Ok(())
}

#[test]
fn a_block_that_is_gone_is_a_fault(rt: HostRuntime) -> Result<(), Fail> {
    let folder = "file_disk_gone_test";
    let path = "file_disk_gone_test/gone";
    let _ = fs::remove_dir_all(&rt, folder);
    fs::create_dir(&rt, folder)?;
    let file = File::create(&rt, path)?;
    file.set_len(2 * 4096)?;
    let mut disk = FileDisk::open_read_only(&rt, path)?;
    assert_eq!(rt; disk.blocks(), 2);
    file.set_len(4096)?;
    let mut page = Page::zero();
    disk.read(0, &mut page)?;
    assert_eq!(rt; disk.read(1, &mut page), Err(Failed));
    fs::remove_dir_all(&rt, folder)?;
    Ok(())
}

// A file that counts the calls that reach it, and lets no sync through if `keeps` is false.
#[derive(Drop)]
struct Watched<'a> {
    file: File,
    writes: &'a Cell<u32>,
    syncs: &'a Cell<u32>,
    keeps: bool,
}

impl<'a> FileExt for Watched<'a> {
    fn read_at(&self, buf: &mut [u8], offset: u64) -> io::Result<usize> {
        self.file.read_at(buf, offset)
    }

    fn write_at(&self, buf: &[u8], offset: u64) -> io::Result<usize> {
        self.writes.set(self.writes.get().saturating_add(1));
        self.file.write_at(buf, offset)
    }
}

impl<'a> Seek for Watched<'a> {
    fn seek(&mut self, to: SeekFrom) -> io::Result<u64> {
        self.file.seek(to)
    }
}

impl<'a> AsRawFd for Watched<'a> {
    fn as_raw_fd(&self) -> i32 {
        self.file.as_raw_fd()
    }
}

impl<'a> OpenFile for Watched<'a> {
    fn metadata(&self) -> io::Result<Metadata> {
        self.file.metadata()
    }

    fn set_len(&self, size: u64) -> io::Result<()> {
        self.file.set_len(size)
    }

    fn sync_all(&self) -> io::Result<()> {
        self.syncs.set(self.syncs.get().saturating_add(1));
        if self.keeps {
            self.file.sync_all()
        } else {
            Err(ErrorKind::Other.into())
        }
    }

    fn sync_data(&self) -> io::Result<()> {
        Err(ErrorKind::Other.into())
    }
}

/// Returns a block of zeros that ends with a signature, as a header block does (`magic` of union swap_header,
/// include/linux/swap.h).
fn signed(signature: &[u8; 10]) -> [u8; 4096] {
    let mut block = [0; 4096];
    block[4086..].copy_from_slice(signature);
    block
}

/// Returns what a first and a second read of a file of two blocks return, and how many writes and syncs reach the file.
fn reads_of(
    rt: &HostRuntime,
    path: &str,
    first: &[u8; 4096],
    access: Access,
    keeps: bool,
) -> io::Result<(bool, bool, u32, u32)> {
    let writes = Cell::new(0);
    let syncs = Cell::new(0);
    let file = OpenOptions::new()
        .read(true)
        .write(true)
        .create(true)
        .open(rt, path)?;
    file.set_len(2 * 4096)?;
    file.write_all_at(first, 0)?;
    let watched = Watched {
        file,
        writes: &writes,
        syncs: &syncs,
        keeps,
    };
    let mut disk = FileDisk::over(watched, &fs::metadata(rt, path)?, access)?;
    if disk.blocks() != 2 {
        return Err(ErrorKind::InvalidData.into());
    }
    let mut page = Page::zero();
    let once = disk.read(0, &mut page).is_ok();
    let twice = disk.read(0, &mut page).is_ok();
    Ok((once, twice, writes.get(), syncs.get()))
}

// On a disk that may be written, a header block that is read first is written back and synced, until that succeeds.
#[test]
fn a_header_that_is_read_is_brought_to_the_disk(rt: HostRuntime) -> Result<(), Fail> {
    let folder = "file_disk_header_test";
    let path = "file_disk_header_test/area";
    let _ = fs::remove_dir_all(&rt, folder);
    fs::create_dir(&rt, folder)?;
    let area = signed(b"SWAPSPACE2");
    let image = signed(b"S1SUSPEND\0");
    let other = signed(b"SWAPSPACE3");
    let both = Access::ReadAndWrite;
    let told = [
        reads_of(&rt, path, &area, both, true)?,
        reads_of(&rt, path, &image, both, true)?,
        reads_of(&rt, path, &other, both, true)?,
        reads_of(&rt, path, &area, both, false)?,
        reads_of(&rt, path, &area, Access::Read, true)?,
    ];
    assert_eq!(rt;
        told,
        [
            (true, true, 1, 1),
            (true, true, 1, 1),
            (true, true, 0, 0),
            (false, false, 2, 2),
            (true, true, 0, 0)
        ]
    );
    let mut block = [0; 4096];
    File::open(&rt, path)?.read_exact_at(&mut block, 0)?;
    assert_eq!(rt; block, area);
    fs::remove_dir_all(&rt, folder)?;
    Ok(())
}

#[test]
fn a_sync_that_fails_is_a_fault(rt: HostRuntime) -> Result<(), Fail> {
    let folder = "file_disk_sync_test";
    let path = "file_disk_sync_test/unsynced";
    let _ = fs::remove_dir_all(&rt, folder);
    fs::create_dir(&rt, folder)?;
    let writes = Cell::new(0);
    let syncs = Cell::new(0);
    let file = File::create(&rt, path)?;
    file.set_len(4096)?;
    let watched = Watched {
        file,
        writes: &writes,
        syncs: &syncs,
        keeps: false,
    };
    let mut disk = FileDisk::over(watched, &fs::metadata(&rt, path)?, Access::ReadAndWrite)?;
    assert_eq!(rt; disk.blocks(), 1);
    disk.write(0, &Page::from_bytes(&[7; 4096]))?;
    assert_eq!(rt; disk.sync(), Err(Failed));
    fs::remove_dir_all(&rt, folder)?;
    Ok(())
}

// A disk that may be written is locked exclusively; readers share.
#[test]
fn a_file_is_locked(rt: HostRuntime) -> Result<(), Fail> {
    let folder = "file_disk_lock_test";
    let path = "file_disk_lock_test/area";
    let _ = fs::remove_dir_all(&rt, folder);
    fs::create_dir(&rt, folder)?;
    File::create(&rt, path)?.set_len(4096)?;
    let writer = FileDisk::open(&rt, path)?;
    assert!(rt; FileDisk::open(&rt, path).is_err());
    assert!(rt; FileDisk::open_read_only(&rt, path).is_err());
    drop(writer);
    let reader = FileDisk::open_read_only(&rt, path)?;
    assert!(rt; FileDisk::open_read_only(&rt, path).is_ok());
    assert!(rt; FileDisk::open(&rt, path).is_err());
    drop(reader);
    assert!(rt; FileDisk::open(&rt, path).is_ok());
    fs::remove_dir_all(&rt, folder)?;
    Ok(())
}

// Errors of flock(2) by their numbers: no locks (ENOLCK), none in this system (ENOSYS, EOPNOTSUPP), a bad descriptor
// (EBADF).
#[test]
fn systems_without_locks(rt: HostRuntime) -> Result<(), Fail> {
    let told = [37, 38, 95, 9].map(|number| has_no_locks(&io::Error::from_raw_os_error(number)));
    assert_eq!(rt; told, [true, true, true, false]);
    Ok(())
}

// The first bytes of the sectors of block 0, as the disk reads.
fn first_bytes<D: Disk>(disk: &mut D) -> Result<[u8; 8], Failed>
    requires { 0 < D.block_count disk.old }
    ensures { D.block_count disk.new ≡ D.block_count disk.old }
{
    let mut page = Page::zero();
    disk.read(0, &mut page)?;
    let mut firsts = [0; 8];
    for j in 0..8 {
        firsts[j] = page.as_bytes()[512 * j];
    }
    Ok(firsts)
}

#[test]
fn a_file_keeps_its_blocks(rt: HostRuntime) -> Result<(), Fail> {
    let _ = fs::remove_dir_all(&rt, KEEPING);
    fs::create_dir(&rt, KEEPING)?;
    fs::File::create(&rt, KEPT)?.set_len(3001 * 4096 + 5)?;

    let mut disk = FileDisk::open(&rt, KEPT)?;
    assert_eq!(rt; disk.blocks(), 3001);
    disk.write(0, &Page::from_bytes(&[7; 4096]))?;
    disk.write(3000, &Page::from_bytes(&[9; 4096]))?;
    disk.sync()?;
    drop(disk);

    let mut disk = FileDisk::open_read_only(&rt, KEPT)?;
    assert_eq!(rt; disk.blocks(), 3001);
    assert_eq!(rt; first_bytes(&mut disk)?, [7; 8]);
    let mut page = Page::zero();
    disk.read(3000, &mut page)?;
    assert_eq!(rt; *page.as_bytes(), [9; 4096]);
    assert_eq!(rt; disk.write(0, &page), Err(Failed));
    drop(disk);

    assert!(rt; FileDisk::open(&rt, "file_disk_keep_test/none").is_err());
    fs::remove_dir_all(&rt, KEEPING)?;
    Ok(())
}

// The file `devices`, which tools/device_test.sh makes, names block devices: `used PATH`, or `free PATH`. Without that
// file there is nothing to open.
#[test]
fn devices_in_use_are_refused(rt: HostRuntime) -> Result<(), Fail> {
    let Ok(devices) = fs::read_to_string(&rt, DEVICES) else {
        return Ok(());
    };
    for line in devices.lines() {
        let Some((state, path)) = line.split_once(' ') else {
            continue;
        };
        assert!(rt; FileDisk::open_read_only(&rt, path)?.blocks() > 0, "{path}");
        if state == "used" {
            assert!(rt; FileDisk::open(&rt, path).is_err(), "{path}");
        } else {
            rewrites_its_end(&rt, path)?;
        }
    }
    Ok(())
}

// Writes the last block of a device, and reads it back.
fn rewrites_its_end<R: Files<File = File> + Alloc + Clone + Drop + Abort>(
    rt: &R,
    path: &str,
) -> Result<(), Fail> {
    let mut disk = FileDisk::open(rt, path)?;
    let blocks = disk.blocks();
    assert!(rt; blocks > 0, "{path}");
    disk.write(blocks - 1, &Page::from_bytes(&[9; 4096]))?;
    disk.sync()?;
    drop(disk);
    let mut disk = FileDisk::open_read_only(rt, path)?;
    assert_eq!(rt; disk.blocks(), blocks);
    let mut page = Page::zero();
    disk.read(blocks - 1, &mut page)?;
    assert_eq!(rt; *page.as_bytes(), [9; 4096]);
    assert_eq!(rt; disk.write(blocks - 1, &page), Err(Failed));
    Ok(())
}
