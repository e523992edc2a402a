//! `swsusp_image`: inspects the hibernation image of a swap area, copies it out and gives it up.
#![tactic(auto)]

use byte_streams::{Held, StdSink};
use command_kit::Status;
use command_words::loader::Asked;
use command_words::swsusp_image::{Area, Command, Form, Unparsed};
use file_disk::FileDisk;
use image_check::Printer;
use image_cli::expanded::{check, check_json, core, differ, page, stream};
use image_cli::{discard, show, show_json};
use image_differ::Side;
use image_machine::Layout;
use image_machine_cli::{loader, machine};
use program_kit::{
    Meter, NOT_OPENED, ProgressDisk, after_quiet, ended, finished, no_memory, open_to_read,
    open_to_write, show_help, sink_fault, words_of,
};
use std::fs::File;
use std::io::{self, IsTerminal};
use std::process::ExitCode;

fn main(rt: HostRuntime) -> ExitCode {
    let words = match words_of(&rt) {
        Ok(words) => words,
        Err(code) => return code,
    };
    let (words, quiet) = after_quiet(&words);
    if let Some(asked) = command_words::loader::parse(words) {
        return if rt.stdout().is_terminal() {
            sink_fault(&rt)
        } else {
            make_dump(&rt, &asked, quiet)
        };
    }
    match Command::parse(rt.alloc(), words) {
        Ok(Command::Stream(_) | Command::Page { .. } | Command::Core(_))
            if rt.stdout().is_terminal() => { sink_fault(&rt) }
        Ok(Command::Check { area, form }) => check_image(&rt, area, form, quiet),
        Ok(Command::Show { area, form }) => show_image(&rt, area, form, quiet),
        Ok(Command::Stream(area)) => stream_image(&rt, area, quiet),
        Ok(Command::Page { area, frame }) => write_page(&rt, area, frame, quiet),
        Ok(Command::Core(area)) => core_image(&rt, area, quiet),
        Ok(
            Command::Differ {
                area,
                other,
                first_only,
            },
        ) => compare_images(&rt, area, other, first_only, quiet),
        Ok(Command::Discard(area)) => discard_image(&rt, area),
        Err(Unparsed::Help(text)) => show_help(&rt, text.as_bytes()),
        Err(Unparsed::Words(text)) => ended(&rt, text.as_bytes(), Status::Words.code()),
        Err(Unparsed::NoMemory) => no_memory(&rt),
    }
}

/// Checks the image of an area.
#[inline(never)]
fn check_image(rt: &HostRuntime, area: Area<'_>, form: Form, quiet: bool) -> ExitCode {
    let (_held, mut disk) = match open_watched(rt, area.swap, quiet) {
        Ok(opened) => opened,
        Err(error) => return not_opened(rt, area.swap, &error),
    };
    let mut out = StdSink::new(rt.stdout());
    let mut note = StdSink::new(rt.stderr());
    let status = match form {
        Form::Lines => {
            let mut out = Printer::new(out);
            check(rt.alloc(), &mut disk, area.offset, &mut out, &mut note)
        }
        Form::Json => check_json(rt.alloc(), &mut disk, area.offset, &mut out, &mut note),
    };
    finished(rt, status)
}

/// Prints what is written in an area.
#[inline(never)]
fn show_image(rt: &HostRuntime, area: Area<'_>, form: Form, quiet: bool) -> ExitCode {
    let (_held, mut disk) = match open_watched(rt, area.swap, quiet) {
        Ok(opened) => opened,
        Err(error) => return not_opened(rt, area.swap, &error),
    };
    let mut out = StdSink::new(rt.stdout());
    let mut note = StdSink::new(rt.stderr());
    let status = match form {
        Form::Lines => show(rt.alloc(), &mut disk, area.offset, &mut out, &mut note),
        Form::Json => show_json(rt.alloc(), &mut disk, area.offset, &mut out, &mut note),
    };
    finished(rt, status)
}

/// Writes the image of an area as a stream. Notes what is wrong with it.
#[inline(never)]
fn stream_image(rt: &HostRuntime, area: Area<'_>, quiet: bool) -> ExitCode {
    let (_held, mut disk) = match open_watched(rt, area.swap, quiet) {
        Ok(opened) => opened,
        Err(error) => return not_opened(rt, area.swap, &error),
    };
    let mut out = StdSink::new(rt.stdout());
    let mut note = Printer::new(StdSink::new(rt.stderr()));
    let status = stream(rt.alloc(), &mut disk, area.offset, &mut out, &mut note);
    finished(rt, status)
}

/// Writes the saved page of a page frame. Notes what is wrong with the image up to that page.
#[inline(never)]
fn write_page(rt: &HostRuntime, area: Area<'_>, frame: u64, quiet: bool) -> ExitCode {
    let (_held, mut disk) = match open_watched(rt, area.swap, quiet) {
        Ok(opened) => opened,
        Err(error) => return not_opened(rt, area.swap, &error),
    };
    let mut out = StdSink::new(rt.stdout());
    let mut note = Printer::new(StdSink::new(rt.stderr()));
    let status = page(
        rt.alloc(),
        &mut disk,
        area.offset,
        frame,
        &mut out,
        &mut note,
    );
    finished(rt, status)
}

/// Compares the images of two areas. Notes what is wrong with either of them.
#[inline(never)]
fn compare_images(
    rt: &HostRuntime,
    area: Area<'_>,
    other: &str,
    first_only: bool,
    quiet: bool,
) -> ExitCode {
    let (_held, disk) = match open_watched(rt, area.swap, quiet) {
        Ok(opened) => opened,
        Err(error) => return not_opened(rt, area.swap, &error),
    };
    // The first area alone shows how far the comparison has come.
    let (_held, other_disk) = match open_watched(rt, other, true) {
        Ok(opened) => opened,
        Err(error) => return not_opened(rt, other, &error),
    };
    let first = Side {
        disk,
        report: Printer::new(StdSink::new(rt.stderr())),
        header: area.offset,
    };
    let second = Side {
        disk: other_disk,
        report: Printer::new(StdSink::new(rt.stderr())),
        header: area.offset,
    };
    let mut out = StdSink::new(rt.stdout());
    let mut note = StdSink::new(rt.stderr());
    let over = differ(rt.alloc(), first, second, first_only, &mut out, &mut note);
    finished(rt, over.2)
}

/// Writes the dump of a loader for the image of an area, or of the machine that it saved. Notes why there is none.
#[inline(never)]
fn make_dump(rt: &HostRuntime, asked: &Asked<'_>, quiet: bool) -> ExitCode {
    let (_held, mut disk) = match open_watched(rt, asked.swap, quiet) {
        Ok(opened) => opened,
        Err(error) => return not_opened(rt, asked.swap, &error),
    };
    let layout = Layout {
        zones: asked.zones.as_slice(),
        extents: asked.extents.as_slice(),
        offset: asked.offset,
    };
    let mut out = StdSink::new(rt.stdout());
    let mut note = Printer::new(StdSink::new(rt.stderr()));
    let status = match asked.wanted {
        command_words::loader::Wanted::Loader => loader(
            rt.alloc(),
            &mut disk,
            &layout,
            &mut out,
            &mut note,
        ),
        command_words::loader::Wanted::Machine(tables) => machine(
            rt.alloc(),
            &mut disk,
            &layout,
            tables,
            &mut out,
            &mut note,
        ),
    };
    finished(rt, status)
}

/// Writes the image of an area as a core file. Notes what is wrong with it.
#[inline(never)]
fn core_image(rt: &HostRuntime, area: Area<'_>, quiet: bool) -> ExitCode {
    let (_held, mut disk) = match open_watched(rt, area.swap, quiet) {
        Ok(opened) => opened,
        Err(error) => return not_opened(rt, area.swap, &error),
    };
    let mut out = StdSink::new(rt.stdout());
    let mut note = Printer::new(StdSink::new(rt.stderr()));
    let status = core(rt.alloc(), &mut disk, area.offset, &mut out, &mut note);
    finished(rt, status)
}

/// Takes back the mark of the image of an area.
#[inline(never)]
fn discard_image(rt: &HostRuntime, area: Area<'_>) -> ExitCode {
    let (_held, mut disk) = match open_to_write(rt, area.swap) {
        Ok(opened) => opened,
        Err(error) => return not_opened(rt, area.swap, &error),
    };
    let mut out = StdSink::new(rt.stdout());
    let mut note = StdSink::new(rt.stderr());
    let status = discard(&mut disk, area.offset, &mut out, &mut note);
    finished(rt, status)
}

/// Opens a swap file read-only, as a disk that shows how much of it was read.
fn open_watched<'a>(
    rt: &'a HostRuntime,
    swap: &str,
    quiet: bool,
) -> io::Result<(Held, ProgressDisk<'a, FileDisk<File>>)> {
    let (held, disk) = open_to_read(rt, swap)?;
    let meter = Meter::new(rt, "swsusp_image", quiet);
    Ok((held, ProgressDisk { disk, meter }))
}

fn not_opened(rt: &HostRuntime, path: &str, error: &io::Error) -> ExitCode {
    if error.kind() == io::ErrorKind::OutOfMemory {
        return no_memory(rt);
    }
    let _ = eprintln!(rt;
        "open fault: {path} isn't there, is no file or block device, is in use, or is an output"
    );
    ExitCode::from(NOT_OPENED)
}
