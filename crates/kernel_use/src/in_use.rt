//! Whether a file or a block device is in use, by what /proc and /sys say.
use crate::{Device, SwapArea, mounted, swap_area, unescaped};
use std::fs::{self, Metadata};
use std::io::{self, ErrorKind};
use std::os::unix::fs::{FileTypeExt, MetadataExt};
use std::rt::Files;

/// A device that is looked for, and the disk that it is or belongs to.
#[derive(Clone, Copy)]
struct Sought {
    device: Device,
    disk: Device,
}

impl Sought {
    fn of<R: Files + Alloc>(rt: &R, device: Device) -> io::Result<Sought> {
        Ok(Sought {
            device,
            disk: disk_of(rt, device)?,
        })
    }

    /// Returns whether the use of `used` excludes this device: it is the same device, its disk, or a partition of it.
    fn meets<R: Files + Alloc>(&self, rt: &R, used: Device) -> io::Result<bool> {
        if used == self.device || used == self.disk {
            return Ok(true);
        }
        Ok(self.device == self.disk && disk_of(rt, used)? == self.disk)
    }
}

/// Returns the disk of a partition; another device is its own.
fn disk_of<R: Files + Alloc>(rt: &R, device: Device) -> io::Result<Device> {
    let Device { major, minor } = device;
    let folder = format!(in rt.alloc(); "/sys/dev/block/{major}:{minor}")?;
    let mark = format!(in rt.alloc(); "{folder}/partition")?;
    if !fs::exists(rt, mark.as_str())? {
        return Ok(device);
    }
    let parent = format!(in rt.alloc(); "{folder}/../dev")?;
    let number = fs::read_to_string(rt, parent.as_str())?;
    Device::parse(number.as_str()).ok_or(ErrorKind::InvalidData.into())
}

/// Returns whether a file system of the device, of its disk or of a partition of it is mounted.
fn is_mounted<R: Files + Alloc>(rt: &R, sought: &Sought) -> io::Result<bool> {
    let mounts = fs::read_to_string(rt, "/proc/self/mountinfo")?;
    for line in mounts.lines() {
        let Some((number, source)) = mounted(line) else {
            return Err(ErrorKind::InvalidData.into());
        };
        if sought.meets(rt, number)? {
            return Ok(true);
        }
        if let Some(device) = device_at(rt, source)?
            && sought.meets(rt, device)?
        {
            return Ok(true);
        }
    }
    Ok(false)
}

/// Returns the block device at an absolute path that /proc prints, if there is one.
fn device_at<R: Files + Alloc>(rt: &R, printed: &str) -> io::Result<Option<Device>> {
    if !printed.starts_with('/') {
        return Ok(None);
    }
    let path = unescaped(rt.alloc(), printed)?;
    match fs::metadata(rt, path.as_str()) {
        Ok(found) if found.file_type().is_block_device() => Ok(Some(Device::of(found.rdev()))),
        Ok(_) => Ok(None),
        Err(e) if e.kind() == ErrorKind::NotFound => Ok(None),
        Err(e) => Err(e),
    }
}

/// Returns what /proc/swaps prints. Without that file, as without /proc or in a kernel that can't swap, no swap area is
/// known.
fn printed_swaps<R: Files + Alloc>(rt: &R) -> io::Result<Option<String<R::A>>> {
    match fs::read_to_string(rt, "/proc/swaps") {
        Ok(swaps) => Ok(Some(swaps)),
        Err(e) if e.kind() == ErrorKind::NotFound => Ok(None),
        Err(e) => Err(e),
    }
}

/// Returns whether the kernel swaps to the device, to its disk or to a partition of it. A swap area whose path leads to
/// no device might be on any.
fn is_swapped_to<R: Files + Alloc>(rt: &R, sought: &Sought) -> io::Result<bool> {
    let Some(swaps) = printed_swaps(rt)? else {
        return Ok(false);
    };
    for line in swaps.lines() {
        if let Some(SwapArea::Device(path)) = swap_area(line) {
            let Some(device) = device_at(rt, path)? else {
                return Ok(true);
            };
            if sought.meets(rt, device)? {
                return Ok(true);
            }
        }
    }
    Ok(false)
}

/// Returns whether another device holds this one.
fn is_held<R: Files + Alloc + Clone + Drop>(rt: &R, device: Device) -> io::Result<bool> {
    let Device { major, minor } = device;
    let folder = format!(in rt.alloc(); "/sys/dev/block/{major}:{minor}")?;
    has_holder(rt, folder.as_str())
}

fn has_holder<R: Files + Alloc + Clone + Drop>(rt: &R, folder: &str) -> io::Result<bool> {
    let holders = format!(in rt.alloc(); "{folder}/holders")?;
    match fs::read_dir(rt, holders.as_str())?.next() {
        None => Ok(false),
        Some(holder) => {
            holder?;
            Ok(true)
        }
    }
}

/// Returns whether another device holds a partition of a disk.
fn has_held_part<R: Files + Alloc + Clone + Drop>(rt: &R, disk: Device) -> io::Result<bool> {
    let Device { major, minor } = disk;
    let folder = format!(in rt.alloc(); "/sys/dev/block/{major}:{minor}")?;
    for entry in fs::read_dir(rt, folder.as_str())? {
        let entry = entry?;
        let part = format!(in rt.alloc(); "{folder}/{}", entry.file_name())?;
        let mark = format!(in rt.alloc(); "{part}/partition")?;
        if exists_within(rt, mark.as_str())? && has_holder(rt, part.as_str())? {
            return Ok(true);
        }
    }
    Ok(false)
}

/// Returns whether a file exists within an entry of a folder. An entry that isn't a folder contains none.
fn exists_within<R: Files>(rt: &R, path: &str) -> io::Result<bool> {
    match fs::exists(rt, path) {
        Err(e) if e.kind() == ErrorKind::NotADirectory => Ok(false),
        found => found,
    }
}

/// Returns whether the kernel uses the device: a file system of it is mounted, the kernel swaps to it, or another
/// device holds it. A disk is in use if a partition of it is, and a partition if its disk is. If the kernel doesn't
/// say, that is an error.
fn is_used_device<R: Files + Alloc + Clone + Drop>(rt: &R, number: u64) -> io::Result<bool> {
    let sought = Sought::of(rt, Device::of(number))?;
    Ok(
        is_mounted(rt, &sought)?
            || is_swapped_to(rt, &sought)?
            || is_held(rt, sought.device)?
            || is_held(rt, sought.disk)?
            || (sought.device == sought.disk && has_held_part(rt, sought.disk)?),
    )
}

/// Returns whether the kernel swaps to a regular file, as far as it says where its swap files are: one that it shows by
/// a path that doesn't lead there, such as that of another root, might be any file. If /proc/swaps exists and can't be
/// read, that is an error.
fn is_swap_file<R: Files + Alloc>(rt: &R, sought: &Metadata) -> io::Result<bool> {
    let Some(swaps) = printed_swaps(rt)? else {
        return Ok(false);
    };
    for line in swaps.lines() {
        if let Some(SwapArea::File(printed)) = swap_area(line) {
            let path = unescaped(rt.alloc(), printed)?;
            match fs::metadata(rt, path.as_str()) {
                Ok(found) if found.dev() == sought.dev() && found.ino() == sought.ino() => {
                    return Ok(true);
                }
                Err(e) if e.kind() == ErrorKind::OutOfMemory => return Err(e),
                _ => {}
            }
        }
    }
    Ok(false)
}

/// Returns whether the kernel uses a block device or a regular file.
pub fn is_in_use<R: Files + Alloc + Clone + Drop>(rt: &R, found: &Metadata) -> io::Result<bool> {
    if found.file_type().is_block_device() {
        is_used_device(rt, found.rdev())
    } else {
        is_swap_file(rt, found)
    }
}
