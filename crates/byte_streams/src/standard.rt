//! The standard streams: the places of closed ones are held (as in coreutils and util-linux, by gnulib's stdopen), and
//! standard output is synced if it is a file.

ghost use Rattle.std.specs.Prelude.{IfOk, IfSome};
ghost use Rattle.std.specs.Fd.{file_raw_fd};
ghost use Rattle.byte_streams.specs.Places.{IsInput, IsOutput, TakesPlaces};

use std::fs::{self, File, Metadata, OpenOptions};
use std::io::{self, ErrorKind};
use std::os::fd::AsRawFd;
use std::os::unix::fs::{FileTypeExt, MetadataExt};

/// The file that stands in for a closed standard stream.
const NO_STREAM: &str = "/dev/null";

/// Standard output and standard error, by their places among the program's descriptors (proc_pid_fd(5)).
const OUTPUTS: [&str; 2] = ["/proc/self/fd/1", "/proc/self/fd/2"];

/// The places of standard streams that were closed, held as long as this value is kept.
#[derive(Drop)]
pub struct Held {
    input: Option<File>,
    first: Option<File>,
    second: Option<File>,
}

/// Takes the places of closed standard streams, so that no file opened later becomes one of them. The file for standard
/// input is write-only and those for the outputs are read-only, so that they fail as closed ones do.
pub fn hold(rt: &HostRuntime) -> io::Result<Held>
    ensures { IfOk result TakesPlaces }
{
    Ok(Held {
        input: input_place(rt)?,
        first: output_place(rt)?,
        second: output_place(rt)?,
    })
}

/// Takes the place of standard input if it is free: a file that is opened takes the lowest free place (open(2)).
fn input_place(rt: &HostRuntime) -> io::Result<Option<File>>
    ensures { IfOk result (λ place. IfSome place (λ file. IsInput (file_raw_fd file))) }
{
    let lowest = File::open(rt, NO_STREAM)?;
    if lowest.as_raw_fd() != 0 {
        return Ok(None);
    }
    drop(lowest);
    let input = OpenOptions::new().write(true).open(rt, NO_STREAM)?;
    Ok(if input.as_raw_fd() == 0 {
        Some(input)
    } else {
        None
    })
}

/// Takes the lowest free place, if it is an output's.
fn output_place(rt: &HostRuntime) -> io::Result<Option<File>>
    ensures { IfOk result (λ place. IfSome place (λ file. IsOutput (file_raw_fd file))) }
{
    let lowest = File::open(rt, NO_STREAM)?;
    Ok(match lowest.as_raw_fd() {
        1 | 2 => Some(lowest),
        _ => None,
    })
}

/// Returns whether standard output or standard error is the file or the block device at a path, so that what is printed
/// would reach it. If the system doesn't show descriptors, this isn't known, and the answer is no.
pub fn is_output(rt: &HostRuntime, path: &str) -> io::Result<bool> {
    let found = fs::metadata(rt, path)?;
    for output in OUTPUTS {
        match fs::metadata(rt, output) {
            Ok(open) if is_same(&open, &found) => return Ok(true),
            Ok(_) => {}
            Err(error) if error.kind() == ErrorKind::NotFound => {}
            Err(error) => return Err(error),
        }
    }
    Ok(false)
}

/// Returns whether two files or block devices are the same one.
fn is_same(first: &Metadata, second: &Metadata) -> bool {
    let devices = first.file_type().is_block_device() && second.file_type().is_block_device();
    (first.dev() == second.dev() && first.ino() == second.ino())
        || (devices && first.rdev() == second.rdev())
}

/// Syncs standard output if it is a regular file, so that what was printed survives a power cut. If the system doesn't
/// show descriptors, or doesn't let the program open the file itself, nothing is synced.
///
/// The library only syncs files that it opened, so the file is opened once more.
pub fn sync_output(rt: &HostRuntime) -> io::Result<()> {
    match fs::metadata(rt, OUTPUTS[0]) {
        Ok(found) if found.is_file() => sync_file(rt, OUTPUTS[0]),
        Ok(_) => Ok(()),
        Err(error) if error.kind() == ErrorKind::NotFound => Ok(()),
        Err(error) => Err(error),
    }
}

fn sync_file(rt: &HostRuntime, path: &str) -> io::Result<()> {
    match OpenOptions::new().write(true).open(rt, path) {
        Ok(file) => file.sync_all(),
        Err(error) if error.kind() == ErrorKind::PermissionDenied => Ok(()),
        Err(error) => Err(error),
    }
}
