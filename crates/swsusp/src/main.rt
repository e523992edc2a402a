//! `swsusp`: hibernation images in swap areas.
#![tactic(auto)]

use byte_streams::{StdSink, StdSource, hold, is_output};
use file_disk::FileDisk;
use page_core::NoMemory;
use program_kit::{NOT_OPENED, ended, finished, no_memory, sink_fault, words_of};
use sector_disk::{Disk, MemDisk};
use std::fs::File;
use std::io;
use std::io::{BufReader, BufWriter, IsTerminal};
use std::process::ExitCode;
use swsusp_cli::{Choice, run, swap_name};

/// The bytes of a dump or a stream that are read at once: one system call for sixteen records of a dump.
const INPUT_PIECE: usize = 65_536;

/// The bytes of a script that are read at once. Most scripts are short, and each byte of the buffer costs time.
const SCRIPT_PIECE: usize = 4096;

/// The bytes of a restored dump or of an exported image that are written to standard output at once.
const OUTPUT_PIECE: usize = 65_536;

fn main(rt: HostRuntime) -> ExitCode {
    let words = match words_of(&rt) {
        Ok(words) => words,
        Err(code) => return code,
    };
    match swap_name(rt.alloc(), &words) {
        Err(NoMemory) => no_memory(&rt),
        Ok(Choice::File(path)) => run_over_file(&rt, &words, path.as_str()),
        Ok(Choice::Memory(blocks)) => run_over_memory(&rt, &words, blocks),
    }
}

/// Runs over the swap file. A terminal as the output of `resume` is refused before the file is opened, since a resume
/// gives the image up.
fn run_over_file(rt: &HostRuntime, words: &[String], path: &str) -> ExitCode {
    let _held = match hold(rt) {
        Ok(held) => held,
        Err(error) => return not_opened(rt, &error),
    };
    if is_command(words, "resume") && rt.stdout().is_terminal() {
        return sink_fault(rt);
    }
    match open_swap(rt, words, path) {
        Ok(mut disk) => run_over(rt, words, &mut disk),
        Err(error) => not_opened(rt, &error),
    }
}

/// Opens the swap file, read-only for `inspect`. Refuses one that is itself an output.
fn open_swap(rt: &HostRuntime, words: &[String], path: &str) -> io::Result<FileDisk<File>> {
    if is_output(rt, path)? {
        return Err(io::ErrorKind::InvalidInput.into());
    }
    if is_command(words, "inspect") {
        FileDisk::open_read_only(rt, path)
    } else {
        FileDisk::open(rt, path)
    }
}
/// Runs over a disk in memory. Refuses a terminal as the output of `export`.
fn run_over_memory(rt: &HostRuntime, words: &[String], blocks: u32) -> ExitCode {
    if is_command(words, "export") && words.len() == 2 && rt.stdout().is_terminal() {
        return sink_fault(rt);
    }
    match MemDisk::create(rt.alloc(), blocks) {
        Err(NoMemory) => no_memory(rt),
        Ok(mut disk) => run_over(rt, words, &mut disk),
    }
}

fn is_command(words: &[String], name: &str) -> bool {
    match words {
        [_, command, ..] => command.as_str() == name,
        _ => false,
    }
}

/// Runs over a disk, with the standard streams. What was printed is synced before the run ends well, since after a
/// resume it is the only copy of a machine.
fn run_over<D: Disk>(rt: &HostRuntime, words: &[String], disk: &mut D) -> ExitCode {
    let Ok(reader) = BufReader::with_capacity(rt.alloc(), input_piece(words), rt.stdin()) else {
        return no_memory(rt);
    };
    let Ok(writer) = BufWriter::with_capacity(rt.alloc(), output_piece(words), rt.stdout()) else {
        return no_memory(rt);
    };
    let mut input = StdSource::new(reader);
    let mut out = StdSink::new(writer);
    let mut note = StdSink::new(rt.stderr());
    let status = run(rt.alloc(), words, &mut input, &mut out, &mut note, disk);
    finished(rt, status)
}

/// Returns how many bytes of standard input are read at once.
fn input_piece(words: &[String]) -> usize {
    if is_command(words, "replay") {
        SCRIPT_PIECE
    } else {
        INPUT_PIECE
    }
}

/// Returns how many bytes are written to standard output at once. The replies of a replay are written one by one, each
/// before the next event.
fn output_piece(words: &[String]) -> usize {
    if is_command(words, "resume") || is_command(words, "export") {
        OUTPUT_PIECE
    } else {
        0
    }
}

fn not_opened(rt: &HostRuntime, error: &io::Error) -> ExitCode {
    if error.kind() == io::ErrorKind::OutOfMemory {
        return no_memory(rt);
    }
    ended(rt, b"open fault\n", NOT_OPENED)
}
