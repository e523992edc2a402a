ghost use Rattle.std.specs.Prelude.{◌≡◌, false, IfOk};
ghost use Rattle.clap.specs.Words.{App, rule_of};
ghost use Rattle.command_words.specs.App.{IsApp};
ghost use Rattle.command_words.specs.MachineApp.{check_app, core_app, differ_app, draw_app, from_core_app, loader_app};
ghost use Rattle.command_words.specs.MachineApp.{machine_app, make_app, show_app, slots_rule};
ghost use Rattle.command_words.specs.MachineApp.{with_players, with_tellers, with_writers};

use crate::building::{any_kernel_argument, named, path, program, with_argument, with_command};
use crate::swsusp_machine::details;
use clap::{Arg, Command, value_parser};
use std::alloc::{AllocError, Global};

/// Makes the commands as clap knows them.
pub(crate) fn command_line<'a>(alloc: Global) -> Result<Command<'a>, AllocError>
    ensures { IfOk result (IsApp machine_app) }
{
    let bare = program(
        alloc,
        "swsusp_machine",
        "Makes machines to try swsusp on, in memory dumps, and compares them",
        details::PROGRAM,
    );
    let playing = with_players(alloc, Ok(bare));
    let writing = with_writers(alloc, playing);
    with_tellers(alloc, writing)
}

/// Adds the commands that play a script to the program.
fn with_players<'a>(
    alloc: Global,
    program: Result<Command<'a>, AllocError>,
) -> Result<Command<'a>, AllocError>
    ensures { (app : App) → IfOk program.entry (IsApp app) → IfOk result (IsApp (with_players app)) }
{
    let program = with_command(program, Ok(making(alloc)));
    with_command(program, Ok(drawing(alloc)))
}

/// Adds the commands that write a memory in another form to the program.
fn with_writers<'a>(
    alloc: Global,
    program: Result<Command<'a>, AllocError>,
) -> Result<Command<'a>, AllocError>
    ensures { (app : App) → IfOk program.entry (IsApp app) → IfOk result (IsApp (with_writers app)) }
{
    let program = with_command(program, Ok(loading(alloc)));
    let program = with_command(program, Ok(coring(alloc)));
    with_command(program, reading(alloc))
}

/// Adds the commands that report on memories to the program.
fn with_tellers<'a>(
    alloc: Global,
    program: Result<Command<'a>, AllocError>,
) -> Result<Command<'a>, AllocError>
    ensures { (app : App) → IfOk program.entry (IsApp app) → IfOk result (IsApp (with_tellers app)) }
{
    let program = with_command(program, Ok(showing(alloc)));
    let program = with_command(program, comparison(alloc));
    with_command(program, trial(alloc))
}

fn making<'a>(alloc: Global) -> Command<'a>
    ensures { IsApp make_app result }
{
    named(
        alloc,
        "make",
        "Plays a script, and writes the memory of the machine that runs at its end as a dump",
        details::MAKE,
    )
}

fn drawing<'a>(alloc: Global) -> Command<'a>
    ensures { IsApp draw_app result }
{
    named(
        alloc,
        "draw",
        "Plays a script, and writes a picture of what happens, event by event",
        details::DRAW,
    )
}

fn loading<'a>(alloc: Global) -> Command<'a>
    ensures { IsApp loader_app result }
{
    named(
        alloc,
        "loader",
        "Writes the dump of the same machine when it has just booted",
        details::LOADER,
    )
}

fn coring<'a>(alloc: Global) -> Command<'a>
    ensures { IsApp core_app result }
{
    named(
        alloc,
        "core",
        "Writes the memory of a dump as an ELF core file",
        details::CORE,
    )
}

fn slots_argument<'a>(alloc: Global) -> Arg<'a>
    ensures rule { rule_of result ≡ slots_rule }
    ensures own { result.global ≡ false }
{
    Arg::new(alloc, "slots")
        .long("slots")
        .value_name("N")
        .value_parser(value_parser!(u32).range(2..=131072))
        .help("How many swap slots the machine has, 2 to 131072 [default: one for each page frame]")
}

fn reading<'a>(alloc: Global) -> Result<Command<'a>, AllocError>
    ensures { IfOk result (IsApp from_core_app) }
{
    named(
        alloc,
        "from-core",
        "Writes the dump of a machine with the memory of an ELF core file",
        details::FROM_CORE,
    )
    .arg(slots_argument(alloc))
}

fn showing<'a>(alloc: Global) -> Command<'a>
    ensures { IsApp show_app result }
{
    named(
        alloc,
        "show",
        "Prints what a dump says of its machine, a fact a line",
        details::SHOW,
    )
}

fn comparison<'a>(alloc: Global) -> Result<Command<'a>, AllocError>
    ensures { IfOk result (IsApp differ_app) }
{
    let command = named(
        alloc,
        "differ",
        "Tells where two dumps differ first",
        details::DIFFER,
    )
    .arg(path(alloc, "first", "DUMP", "A memory dump"));
    with_argument(command, path(alloc, "second", "DUMP", "Another one"))
}

fn trial<'a>(alloc: Global) -> Result<Command<'a>, AllocError>
    ensures { IfOk result (IsApp check_app) }
{
    let swap = path(
        alloc,
        "swap",
        "SWAP",
        "A swap file or a block device, which is only read",
    );
    let command = named(
        alloc,
        "check",
        "Tells what a resume of an image would answer",
        details::CHECK,
    )
    .arg(any_kernel_argument(alloc));
    with_argument(command, swap)
}
