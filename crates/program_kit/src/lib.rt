//! What the programs do alike around their commands: the words that they are given, the swap file that they open, the
//! disk that shows a waiting user how much of it was read and written, and how they end.
#![tactic(auto)]

mod progress;

use byte_streams::{Held, StdSink, hold, is_output, sync_output};
use command_kit::{Status, print, tell};
use file_disk::FileDisk;
pub use progress::{Meter, ProgressDisk};
use std::fs::File;
use std::process::ExitCode;
use std::{env, io};

/// The exit status if a file can't be opened; no command returns it.
pub const NOT_OPENED: u8 = 7;

/// Returns the words that the program was given, its name first, or the exit status if it can't have them.
pub fn words_of(rt: &HostRuntime) -> Result<Vec<String>, ExitCode> {
    let words = match env::args(rt) {
        Ok(words) => words,
        Err(error) if error.kind() == io::ErrorKind::OutOfMemory => return Err(no_memory(rt)),
        Err(_) => return Err(ended(rt, b"words\n", Status::Words.code())),
    };
    match words.collect::<Vec<String>>(rt.alloc()) {
        Ok(words) => Ok(words),
        Err(_) => Err(no_memory(rt)),
    }
}

/// Returns the words to parse, and whether `--quiet` comes first. If it does, it takes the place of the program's name.
pub fn after_quiet(words: &[String]) -> (&[String], bool) {
    match words.get(1) {
        Some(word) if word.as_str() == "--quiet" => (&words[1..], true),
        _ => (words, false),
    }
}

/// Opens a swap file read-only, after taking the places of closed standard streams. Refuses one that is itself an output.
pub fn open_to_read(rt: &HostRuntime, swap: &str) -> io::Result<(Held, FileDisk<File>)> {
    let held = hold_for(rt, swap)?;
    Ok((held, FileDisk::open_read_only(rt, swap)?))
}

/// Opens a swap file for reading and writing, as `open_to_read` does.
pub fn open_to_write(rt: &HostRuntime, swap: &str) -> io::Result<(Held, FileDisk<File>)> {
    let held = hold_for(rt, swap)?;
    Ok((held, FileDisk::open(rt, swap)?))
}

fn hold_for(rt: &HostRuntime, swap: &str) -> io::Result<Held> {
    let held = hold(rt)?;
    if is_output(rt, swap)? {
        return Err(io::ErrorKind::InvalidInput.into());
    }
    Ok(held)
}

/// Prints the help that was asked for.
pub fn show_help(rt: &HostRuntime, text: &[u8]) -> ExitCode {
    let mut out = StdSink::new(rt.stdout());
    let mut note = StdSink::new(rt.stderr());
    let status = tell(Status::Done, text, b"", &mut out, &mut note);
    finished(rt, status)
}

/// Ends with a command's status. What it printed is synced before it ends well, since after a resume that is the only
/// copy of a machine.
pub fn finished(rt: &HostRuntime, status: Status) -> ExitCode {
    if status == Status::Done && sync_output(rt).is_err() {
        return sink_fault(rt);
    }
    ExitCode::from(status.code())
}

/// Ends outside a command, with a note.
pub fn ended(rt: &HostRuntime, text: &[u8], code: u8) -> ExitCode {
    let _ = print(&mut StdSink::new(rt.stderr()), text);
    ExitCode::from(code)
}

/// Ends for want of memory.
pub fn no_memory(rt: &HostRuntime) -> ExitCode {
    ended(rt, b"no memory\n", Status::Memory.code())
}

/// Ends because standard output failed, or is a terminal where none is wanted.
pub fn sink_fault(rt: &HostRuntime) -> ExitCode {
    ended(rt, b"sink fault\n", Status::Stream.code())
}
