//! `swsusp_machine`: makes machines, as memory dumps, to try `swsusp` on.
#![tactic(auto)]

use byte_streams::{StdSink, StdSource, hold};
use command_kit::Status;
use command_words::swsusp_machine::{Command, Unparsed};
use file_disk::{FileDisk, first_map_beyond};
use image_machine_cli::from_core;
use machine_cli::{check, core, differ, draw, loader, make, show_facts};
use page_core::NoMemory;
use plain_machine::IdentCheck;
use program_kit::{
    Meter, NOT_OPENED, ProgressDisk, after_quiet, ended, finished, no_memory, open_to_read,
    show_help, sink_fault, words_of,
};
use sector_disk::MemDisk;
use std::fs::File;
use std::io;
use std::io::{BufReader, BufWriter, IsTerminal};
use std::process::ExitCode;
use std::rt::{Stdin, Stdout};

/// The bytes of standard input that are read at once.
const INPUT_PIECE: usize = 65_536;

/// The bytes of a dump or a core file that are written to standard output at once.
const OUTPUT_PIECE: usize = 65_536;

/// The blocks of the disk in memory that a script is played over.
const MEMORY_BLOCKS: u32 = 16384;

fn main(rt: HostRuntime) -> ExitCode {
    let words = match words_of(&rt) {
        Ok(words) => words,
        Err(code) => return code,
    };
    let (words, quiet) = after_quiet(&words);
    match Command::parse(rt.alloc(), words) {
        Ok(
            Command::Make
            | Command::Draw
            | Command::Loader
            | Command::Core
            | Command::FromCore { .. },
        ) if rt.stdout().is_terminal() => sink_fault(&rt),
        Ok(Command::Make) => make_over_memory(&rt, quiet),
        Ok(Command::Draw) => draw_over_memory(&rt, quiet),
        Ok(Command::Loader) => make_loader(&rt),
        Ok(Command::Core) => write_core(&rt),
        Ok(Command::FromCore { slots }) => read_core(&rt, slots),
        Ok(Command::Show) => show_dump(&rt),
        Ok(Command::Differ { first, second }) => differ_files(&rt, first, second),
        Ok(Command::Check { check, swap }) => check_file(&rt, swap, check, quiet),
        Err(Unparsed::Help(text)) => show_help(&rt, text.as_bytes()),
        Err(Unparsed::Words(text)) => ended(&rt, text.as_bytes(), Status::Words.code()),
        Err(Unparsed::NoMemory) => no_memory(&rt),
    }
}

/// Makes a disk that shows how much of it was read and written, if that takes long.
fn watched<D>(rt: &HostRuntime, disk: D, quiet: bool) -> ProgressDisk<'_, D> {
    let meter = Meter::new(rt, "swsusp_machine", quiet);
    ProgressDisk { disk, meter }
}

/// Returns standard input, buffered.
fn input_of(rt: &HostRuntime) -> io::Result<StdSource<BufReader<Stdin>>> {
    let reader = BufReader::with_capacity(rt.alloc(), INPUT_PIECE, rt.stdin())?;
    Ok(StdSource::new(reader))
}

/// Returns standard output, buffered.
fn output_of(rt: &HostRuntime) -> io::Result<StdSink<BufWriter<Stdout>>> {
    let writer = BufWriter::with_capacity(rt.alloc(), OUTPUT_PIECE, rt.stdout())?;
    Ok(StdSink::new(writer))
}

/// Plays a script over a disk in memory.
fn make_over_memory(rt: &HostRuntime, quiet: bool) -> ExitCode {
    let mut disk = match MemDisk::create(rt.alloc(), MEMORY_BLOCKS) {
        Ok(disk) => watched(rt, disk, quiet),
        Err(NoMemory) => return no_memory(rt),
    };
    let Ok(mut input) = input_of(rt) else {
        return no_memory(rt);
    };
    let Ok(mut out) = output_of(rt) else {
        return no_memory(rt);
    };
    let mut note = StdSink::new(rt.stderr());
    let status = make(rt.alloc(), &mut input, &mut out, &mut note, &mut disk);
    finished(rt, status)
}

/// Draws the run of a script over a disk in memory.
#[inline(never)]
fn draw_over_memory(rt: &HostRuntime, quiet: bool) -> ExitCode {
    let mut disk = match MemDisk::create(rt.alloc(), MEMORY_BLOCKS) {
        Ok(disk) => watched(rt, disk, quiet),
        Err(NoMemory) => return no_memory(rt),
    };
    let Ok(mut input) = input_of(rt) else {
        return no_memory(rt);
    };
    let Ok(mut out) = output_of(rt) else {
        return no_memory(rt);
    };
    let mut note = StdSink::new(rt.stderr());
    let status = draw(rt.alloc(), &mut input, &mut out, &mut note, &mut disk);
    finished(rt, status)
}

/// Reads a dump from standard input, and writes its loader.
fn make_loader(rt: &HostRuntime) -> ExitCode {
    let Ok(mut input) = input_of(rt) else {
        return no_memory(rt);
    };
    let Ok(mut out) = output_of(rt) else {
        return no_memory(rt);
    };
    let mut note = StdSink::new(rt.stderr());
    let status = loader(rt.alloc(), &mut input, &mut out, &mut note);
    finished(rt, status)
}

/// Reads a dump from standard input, and writes the core file of its memory.
#[inline(never)]
fn write_core(rt: &HostRuntime) -> ExitCode {
    let Ok(mut input) = input_of(rt) else {
        return no_memory(rt);
    };
    let Ok(mut out) = output_of(rt) else {
        return no_memory(rt);
    };
    let mut note = StdSink::new(rt.stderr());
    let status = core(rt.alloc(), &mut input, &mut out, &mut note);
    finished(rt, status)
}

/// Reads a core file from standard input, and writes the dump of a machine with its memory.
#[inline(never)]
fn read_core(rt: &HostRuntime, slots: Option<u32>) -> ExitCode {
    let Ok(mut input) = input_of(rt) else {
        return no_memory(rt);
    };
    let Ok(mut out) = output_of(rt) else {
        return no_memory(rt);
    };
    let mut note = StdSink::new(rt.stderr());
    let status = from_core(rt.alloc(), &mut input, slots, &mut out, &mut note);
    finished(rt, status)
}

/// Reads a dump from standard input, and prints its facts.
#[inline(never)]
fn show_dump(rt: &HostRuntime) -> ExitCode {
    let Ok(mut input) = input_of(rt) else {
        return no_memory(rt);
    };
    let mut out = StdSink::new(rt.stdout());
    let mut note = StdSink::new(rt.stderr());
    let status = show_facts(rt.alloc(), &mut input, &mut out, &mut note);
    finished(rt, status)
}

/// Compares two dumps in files.
#[inline(never)]
fn differ_files(rt: &HostRuntime, first: &str, second: &str) -> ExitCode {
    let _held = match hold(rt) {
        Ok(held) => held,
        Err(error) => return not_opened(rt, first, &error),
    };
    let first_file = match File::open(rt, first) {
        Ok(file) => file,
        Err(error) => return not_opened(rt, first, &error),
    };
    let second_file = match File::open(rt, second) {
        Ok(file) => file,
        Err(error) => return not_opened(rt, second, &error),
    };
    let mut first = StdSource::new(first_file);
    let mut second = StdSource::new(second_file);
    let mut out = StdSink::new(rt.stdout());
    let mut note = StdSink::new(rt.stderr());
    let status = differ(rt.alloc(), &mut first, &mut second, &mut out, &mut note);
    finished(rt, status)
}

/// Checks the image of a swap file, which is opened read-only.
#[inline(never)]
fn check_file(rt: &HostRuntime, swap: &str, ident_check: IdentCheck, quiet: bool) -> ExitCode {
    let (_held, mut disk) = match open_to_read(rt, swap) {
        Ok(opened) => opened,
        Err(error) => return not_opened(rt, swap, &error),
    };
    warn_of_file(rt, &mut disk);
    let mut disk = watched(rt, disk, quiet);
    let Ok(mut input) = input_of(rt) else {
        return no_memory(rt);
    };
    let mut out = StdSink::new(rt.stdout());
    let mut note = StdSink::new(rt.stderr());
    let status = check(
        rt.alloc(),
        &mut input,
        &mut out,
        &mut note,
        &mut disk,
        ident_check,
    );
    finished(rt, status)
}

/// Warns if a swap file seems to be given instead of the device that it lies on.
fn warn_of_file(rt: &HostRuntime, disk: &mut FileDisk<File>) {
    if let Some(first) = first_map_beyond(disk) {
        let _ = eprintln!(rt;
            "warning: the first map is block {first}, beyond the file: of a swap file in a file system give the device"
        );
    }
}

fn not_opened(rt: &HostRuntime, path: &str, error: &io::Error) -> ExitCode {
    if error.kind() == io::ErrorKind::OutOfMemory {
        return no_memory(rt);
    }
    let _ = eprintln!(rt;
        "open fault: {path} isn't there, can't be opened, is in use, or is an output"
    );
    ExitCode::from(NOT_OPENED)
}
