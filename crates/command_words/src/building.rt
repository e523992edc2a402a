//! The parts of a command line that the programs build alike.
ghost use Rattle.std.specs.Prelude.{◌≡◌, false, IfOk};
ghost use Rattle.clap.specs.Words.{App, Rule, new_app, rule_of, with_rule, with_subcommand};
ghost use Rattle.command_words.specs.App.{IsApp, any_kernel_rule, flag_rule, offset_rule, path_rule, program_app};
ghost use Rattle.command_words.specs.App.{swap_rule};

use clap::{Arg, ArgAction, Command, value_parser};
use std::alloc::{AllocError, Global};

/// Makes a program with its name, what it does, and the rest of its help. It requires one of its commands.
pub fn program<'a>(alloc: Global, name: &'a str, about: &'a str, details: &'a str) -> Command<'a>
    ensures { IsApp (program_app name.entry.now) result }
{
    named(alloc, name, about, details)
        .version("0.2.0")
        .subcommand_required(true)
}

/// Makes a command with its name, what it does, and the rest of its help.
pub fn named<'a>(alloc: Global, name: &'a str, about: &'a str, details: &'a str) -> Command<'a>
    ensures { IsApp (new_app name.entry.now) result }
{
    Command::new(alloc, name).about(about).after_help(details)
}

/// Adds a command to the program, if both could be made.
pub fn with_command<'a>(
    program: Result<Command<'a>, AllocError>,
    command: Result<Command<'a>, AllocError>,
) -> Result<Command<'a>, AllocError>
    ensures { (app below : App) → IfOk program.entry (IsApp app) → IfOk command.entry (IsApp below) →
        IfOk result (IsApp (with_subcommand app below.top)) }
{
    let program = program?;
    program.subcommand(command?)
}

/// Adds an argument to a command, if that could be made.
pub fn with_argument<'a>(
    command: Result<Command<'a>, AllocError>,
    argument: Arg<'a>,
) -> Result<Command<'a>, AllocError>
    ensures { (app : App) (rule : Rule) → IfOk command.entry (IsApp app) → rule_of argument.entry ≡ rule →
        argument.entry.global ≡ false → IfOk result (IsApp (with_rule app rule)) }
{
    command?.arg(argument)
}

/// Makes an option without a value.
pub fn flag<'a>(alloc: Global, name: &'a str, help: &'a str) -> Arg<'a>
    ensures rule { rule_of result ≡ flag_rule name.entry.now }
    ensures own { result.global ≡ false }
{
    Arg::new(alloc, name)
        .long(name)
        .action(ArgAction::SetTrue)
        .help(help)
}

/// Makes a path that must be given, and that help calls `value`.
pub fn path<'a>(alloc: Global, name: &'a str, value: &'a str, help: &'a str) -> Arg<'a>
    ensures rule { rule_of result ≡ path_rule name.entry.now }
    ensures own { result.global ≡ false }
{
    Arg::new(alloc, name)
        .value_name(value)
        .required(true)
        .help(help)
}

/// Makes the path of a swap area.
pub fn swap_argument<'a>(alloc: Global) -> Arg<'a>
    ensures rule { rule_of result ≡ swap_rule }
    ensures own { result.global ≡ false }
{
    path(alloc, "swap", "SWAP", "A swap file or a block device")
}

/// Makes the option for the block of a swap area's header.
pub fn offset_argument<'a>(alloc: Global) -> Arg<'a>
    ensures rule { rule_of result ≡ offset_rule }
    ensures own { result.global ≡ false }
{
    Arg::new(alloc, "offset")
        .long("offset")
        .value_name("N")
        .value_parser(value_parser!(u32))
        .default_value("0")
        .help("The block of the area's header")
}

/// Makes the option that takes an image of another kernel.
pub fn any_kernel_argument<'a>(alloc: Global) -> Arg<'a>
    ensures rule { rule_of result ≡ any_kernel_rule }
    ensures own { result.global ≡ false }
{
    flag(alloc, "any-kernel", "Take an image of another kernel too")
}
