ghost use Rattle.std.specs.Prelude.{◌≡◌, false, IfOk, length};
ghost use Rattle.clap.specs.Words.{App, rule_of};
ghost use Rattle.command_words.specs.App.{IsApp};
ghost use Rattle.command_words.specs.ImageApp.{area_app, differ_app, dump_app, formed_app, frame_rule, image_app, loader_app};
ghost use Rattle.command_words.specs.ImageApp.{machine_app, numbers_rule, page_app};
ghost use Rattle.command_words.specs.ImageApp.{with_enders, with_makers, with_tellers, with_writers};

use crate::building::{
    flag, named, offset_argument, path, program, swap_argument, with_argument, with_command,
};
use crate::swsusp_image::details;
use clap::{Arg, ArgAction, Command, value_parser};
use std::alloc::{AllocError, Global};

/// Makes the commands as clap knows them.
pub(crate) fn command_line<'a>(alloc: Global) -> Result<Command<'a>, AllocError>
    ensures { IfOk result (IsApp image_app) }
{
    let bare = program(
        alloc,
        "swsusp_image",
        "Looks into hibernation images in swap areas, moves them and gives them up",
        details::PROGRAM,
    );
    let telling = with_tellers(alloc, Ok(bare));
    let writing = with_writers(alloc, telling);
    let ending = with_enders(alloc, writing);
    with_makers(alloc, ending)
}

/// Adds the commands that report what an area holds to the program.
fn with_tellers<'a>(
    alloc: Global,
    program: Result<Command<'a>, AllocError>,
) -> Result<Command<'a>, AllocError>
    ensures { (app : App) → IfOk program.entry (IsApp app) → IfOk result (IsApp (with_tellers app)) }
{
    let program = with_command(
        program,
        in_form(
            alloc,
            "check",
            "Tells what is wrong with the image of a swap area",
            details::CHECK,
        ),
    );
    with_command(
        program,
        in_form(
            alloc,
            "show",
            "Prints what is written in a swap area, a fact a line",
            details::SHOW,
        ),
    )
}

/// Adds the commands that write what an image holds to the program.
fn with_writers<'a>(
    alloc: Global,
    program: Result<Command<'a>, AllocError>,
) -> Result<Command<'a>, AllocError>
    ensures { (app : App) → IfOk program.entry (IsApp app) → IfOk result (IsApp (with_writers app)) }
{
    let program = with_command(
        program,
        over_area(
            alloc,
            "stream",
            "Writes the image of a swap area as a stream of bytes",
            details::STREAM,
        ),
    );
    let program = with_command(program, page(alloc));
    with_command(
        program,
        over_area(
            alloc,
            "core",
            "Writes the image of a swap area as an ELF core file of its machine's memory",
            details::CORE,
        ),
    )
}

/// Adds the commands that compare images and give them up to the program.
fn with_enders<'a>(
    alloc: Global,
    program: Result<Command<'a>, AllocError>,
) -> Result<Command<'a>, AllocError>
    ensures { (app : App) → IfOk program.entry (IsApp app) → IfOk result (IsApp (with_enders app)) }
{
    let program = with_command(program, comparison(alloc));
    with_command(
        program,
        over_area(
            alloc,
            "discard",
            "Takes the mark of an image back",
            details::DISCARD,
        ),
    )
}

/// Adds the commands that make dumps to the program.
fn with_makers<'a>(
    alloc: Global,
    program: Result<Command<'a>, AllocError>,
) -> Result<Command<'a>, AllocError>
    ensures { (app : App) → IfOk program.entry (IsApp app) → IfOk result (IsApp (with_makers app)) }
{
    let program = with_command(program, loader(alloc));
    with_command(program, machine(alloc))
}

/// Makes a command over a swap area.
fn over_area<'a>(
    alloc: Global,
    name: &'a str,
    about: &'a str,
    details: &'a str,
) -> Result<Command<'a>, AllocError>
    ensures { IfOk result (IsApp (area_app name.entry.now)) }
{
    let command = named(alloc, name, about, details).arg(offset_argument(alloc));
    with_argument(command, swap_argument(alloc))
}

/// Makes a command over a swap area that prints in lines or as JSON.
fn in_form<'a>(
    alloc: Global,
    name: &'a str,
    about: &'a str,
    details: &'a str,
) -> Result<Command<'a>, AllocError>
    ensures { IfOk result (IsApp (formed_app name.entry.now)) }
{
    let json = flag(alloc, "json", "Print one JSON object in place of lines");
    with_argument(over_area(alloc, name, about, details), json)
}

fn frame_argument<'a>(alloc: Global) -> Arg<'a>
    ensures rule { rule_of result ≡ frame_rule }
    ensures own { result.global ≡ false }
{
    Arg::new(alloc, "frame")
        .value_name("P")
        .required(true)
        .value_parser(value_parser!(u64))
        .help("The number of the page frame")
}

fn page<'a>(alloc: Global) -> Result<Command<'a>, AllocError>
    ensures { IfOk result (IsApp page_app) }
{
    let command = over_area(
        alloc,
        "page",
        "Writes the saved page of a page frame",
        details::PAGE,
    );
    with_argument(command, frame_argument(alloc))
}

fn comparison<'a>(alloc: Global) -> Result<Command<'a>, AllocError>
    ensures { IfOk result (IsApp differ_app) }
{
    let command = over_area(
        alloc,
        "differ",
        "Tells where two images differ",
        details::DIFFER,
    );
    let first = flag(alloc, "first", "Tell the first difference alone");
    let other = path(alloc, "other", "SWAP", "Another swap file or block device");
    with_argument(with_argument(command, first), other)
}

fn loader<'a>(alloc: Global) -> Result<Command<'a>, AllocError>
    ensures { IfOk result (IsApp loader_app) }
{
    over_layout(
        alloc,
        "loader",
        "Makes the dump of a loader for the image of a swap area",
        details::LOADER,
    )
}

fn machine<'a>(alloc: Global) -> Result<Command<'a>, AllocError>
    ensures { IfOk result (IsApp machine_app) }
{
    let command = over_layout(
        alloc,
        "machine",
        "Makes the dump of the machine that the image of a swap area saved",
        details::MACHINE,
    );
    let help = "The first page frames of the tables in the image";
    with_argument(command, numbers(alloc, "tables", &["F", "S"], help))
}

/// Makes an option for as many numbers of 32 bits as `values` names, which may be repeated.
fn numbers<'a>(alloc: Global, name: &'a str, values: &'a [&'a str], help: &'a str) -> Arg<'a>
    ensures rule { rule_of result ≡ numbers_rule name.entry.now (length values.entry.now) }
    ensures own { result.global ≡ false }
{
    Arg::new(alloc, name)
        .long(name)
        .action(ArgAction::Append)
        .num_args(values.len())
        .value_names(values)
        .value_parser(value_parser!(u32))
        .help(help)
}

/// Makes a command whose options say where page frames and slots lie, and may be repeated.
fn over_layout<'a>(
    alloc: Global,
    name: &'a str,
    about: &'a str,
    details: &'a str,
) -> Result<Command<'a>, AllocError>
    ensures { IfOk result (IsApp (dump_app name.entry.now)) }
{
    let command = over_area(alloc, name, about, details);
    let zone_help = "A zone of page frames, one of up to 16";
    let zone = numbers(alloc, "zone", &["START", "COUNT"], zone_help);
    let command = with_argument(command, zone);
    let extent_help = "An extent of the area, one of up to 64";
    let extent = numbers(alloc, "extent", &["START", "LENGTH", "BLOCK"], extent_help);
    with_argument(command, extent)
}
