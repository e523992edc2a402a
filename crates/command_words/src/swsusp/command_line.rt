ghost use Rattle.std.specs.Prelude.{◌≡◌, false, IfOk};
ghost use Rattle.clap.specs.Words.{App, rule_of};
ghost use Rattle.command_words.specs.App.{IsApp, drill_app, export_app, hibernate_app, image_size_rule, import_app};
ghost use Rattle.command_words.specs.App.{inspect_app, number_rule, replay_app, resume_app, swsusp_app};
ghost use Rattle.command_words.specs.App.{with_areas, with_players, with_streams};

use crate::building::{
    any_kernel_argument, flag, named, offset_argument, program, swap_argument, with_argument,
    with_command,
};
use crate::swsusp::details;
use clap::{Arg, Command, value_parser};
use std::alloc::{AllocError, Global};

/// Makes the commands as clap knows them.
pub(crate) fn command_line<'a>(alloc: Global) -> Result<Command<'a>, AllocError>
    ensures { IfOk result (IsApp swsusp_app) }
{
    let bare = program(
        alloc,
        "swsusp",
        "Writes, checks and resumes hibernation images in swap areas",
        details::PROGRAM,
    );
    let areas = with_areas(alloc, Ok(bare));
    let playing = with_players(alloc, areas);
    with_streams(alloc, playing)
}

/// Adds the commands over a swap area to the program.
fn with_areas<'a>(
    alloc: Global,
    program: Result<Command<'a>, AllocError>,
) -> Result<Command<'a>, AllocError>
    ensures { (app : App) → IfOk program.entry (IsApp app) → IfOk result (IsApp (with_areas app)) }
{
    let program = with_command(program, inspection(alloc));
    let program = with_command(program, hibernation(alloc));
    with_command(program, resumption(alloc))
}

/// Adds the commands that play a run to the program.
fn with_players<'a>(
    alloc: Global,
    program: Result<Command<'a>, AllocError>,
) -> Result<Command<'a>, AllocError>
    ensures { (app : App) → IfOk program.entry (IsApp app) → IfOk result (IsApp (with_players app)) }
{
    let program = with_command(program, Ok(replay(alloc)));
    with_command(program, drill(alloc))
}

/// Adds the commands over a stream to the program.
fn with_streams<'a>(
    alloc: Global,
    program: Result<Command<'a>, AllocError>,
) -> Result<Command<'a>, AllocError>
    ensures { (app : App) → IfOk program.entry (IsApp app) → IfOk result (IsApp (with_streams app)) }
{
    let program = with_command(program, Ok(export(alloc)));
    with_command(program, importation(alloc))
}

fn inspection<'a>(alloc: Global) -> Result<Command<'a>, AllocError>
    ensures { IfOk result (IsApp inspect_app) }
{
    let command = named(
        alloc,
        "inspect",
        "Tells what the header block of a swap area says",
        details::INSPECT,
    )
    .arg(offset_argument(alloc));
    with_argument(command, swap_argument(alloc))
}

fn image_size_argument<'a>(alloc: Global) -> Arg<'a>
    ensures rule { rule_of result ≡ image_size_rule }
    ensures own { result.global ≡ false }
{
    Arg::new(alloc, "image-size")
        .long("image-size")
        .value_name("N")
        .value_parser(value_parser!(u64))
        .help("Drop cached page frames first, until N saveable ones are left")
}

fn hibernation<'a>(alloc: Global) -> Result<Command<'a>, AllocError>
    ensures { IfOk result (IsApp hibernate_app) }
{
    let command = named(
        alloc,
        "hibernate",
        "Reads a memory dump from standard input, and lets its machine hibernate",
        details::HIBERNATE,
    )
    .arg(flag(alloc, "skip-zeros", "Leave out pages that are all zero"));
    let command = with_argument(command, image_size_argument(alloc));
    with_argument(command, swap_argument(alloc))
}

fn resumption<'a>(alloc: Global) -> Result<Command<'a>, AllocError>
    ensures { IfOk result (IsApp resume_app) }
{
    let command = named(
        alloc,
        "resume",
        "Reads a loader's memory dump from standard input, and resumes the image of a swap area",
        details::RESUME,
    )
    .arg(any_kernel_argument(alloc));
    with_argument(command, swap_argument(alloc))
}

fn replay<'a>(alloc: Global) -> Command<'a>
    ensures { IsApp replay_app result }
{
    named(
        alloc,
        "replay",
        "Plays a script from standard input, and prints each event's reply",
        details::REPLAY,
    )
}

fn number_argument<'a>(alloc: Global) -> Arg<'a>
    ensures rule { rule_of result ≡ number_rule }
    ensures own { result.global ≡ false }
{
    Arg::new(alloc, "number")
        .value_name("NUMBER")
        .required(true)
        .value_parser(value_parser!(u32).range(1..=2000))
        .help("How many page frames the run claims, 1 to 2000")
}

fn drill<'a>(alloc: Global) -> Result<Command<'a>, AllocError>
    ensures { IfOk result (IsApp drill_app) }
{
    named(
        alloc,
        "drill",
        "Plays the run that is made from a number, and sums its replies up in a line",
        details::DRILL,
    )
    .arg(number_argument(alloc))
}

fn export<'a>(alloc: Global) -> Command<'a>
    ensures { IsApp export_app result }
{
    named(
        alloc,
        "export",
        "Reads a memory dump from standard input, and writes the image of its memory",
        details::EXPORT,
    )
}

fn importation<'a>(alloc: Global) -> Result<Command<'a>, AllocError>
    ensures { IfOk result (IsApp import_app) }
{
    named(
        alloc,
        "import",
        "Reads an image as a stream from standard input, and writes it into a swap area",
        details::IMPORT,
    )
    .arg(swap_argument(alloc))
}
