ghost use Rattle.std.specs.Prelude.{◌≡◌};
ghost use Rattle.clap.specs.Words.{found_of, rows_of, subcommand_rows_of};
ghost use Rattle.command_words.specs.Asked.{asked_by};
ghost use Rattle.command_words.specs.Matched.{Answers, asked_in, drill_in, format_by, hibernate_in};
ghost use Rattle.command_words.specs.Matched.{import_in, inspect_in, matched_by, resume_in};

use crate::checks::check_of;
use crate::swsusp::command::Command;
use clap::ArgMatches;
use page_core::Format;

/// Returns the command that matches ask for.
pub(crate) fn matched<'a>(matches: &ArgMatches<'a>) -> Option<Command<'a>>
    ensures { Answers asked_by (asked_in (subcommand_rows_of matches.now)) result }
{
    let (name, values) = matches.subcommand()?;
    match name {
        "inspect" => inspection(values),
        "hibernate" => hibernation(values),
        "resume" => resumption(values),
        "replay" => Some(Command::Replay),
        "drill" => drill(values),
        "export" => Some(Command::Export),
        "import" => importation(values),
        _ => None,
    }
}

fn inspection<'a>(values: &ArgMatches<'a>) -> Option<Command<'a>>
    ensures { Answers asked_by (inspect_in (rows_of (found_of values.now))) result }
{
    let swap = values.get_str("swap")?;
    let offset = values.get_one::<u32>("offset")?;
    Some(Command::Inspect { offset, swap })
}

fn hibernation<'a>(values: &ArgMatches<'a>) -> Option<Command<'a>>
    ensures { Answers asked_by (hibernate_in (rows_of (found_of values.now))) result }
{
    let swap = values.get_str("swap")?;
    let format = format_of(values.get_flag("skip-zeros"));
    let size = values.get_one::<u64>("image-size");
    Some(Command::Hibernate { format, size, swap })
}

fn format_of(skip_zeros: bool) -> Format
    ensures { result ≡ format_by skip_zeros }
{
    if skip_zeros {
        Format::SkipZeros
    } else {
        Format::Plain
    }
}

fn resumption<'a>(values: &ArgMatches<'a>) -> Option<Command<'a>>
    ensures { Answers asked_by (resume_in (rows_of (found_of values.now))) result }
{
    let swap = values.get_str("swap")?;
    let check = check_of(values.get_flag("any-kernel"));
    Some(Command::Resume { check, swap })
}

fn drill<'a>(values: &ArgMatches<'a>) -> Option<Command<'a>>
    ensures { Answers asked_by (drill_in (rows_of (found_of values.now))) result }
{
    let number = values.get_one::<u32>("number")?;
    Some(Command::Drill(number))
}

fn importation<'a>(values: &ArgMatches<'a>) -> Option<Command<'a>>
    ensures { Answers asked_by (import_in (rows_of (found_of values.now))) result }
{
    let swap = values.get_str("swap")?;
    Some(Command::Import { swap })
}
