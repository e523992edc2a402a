ghost use Rattle.clap.specs.Words.{found_of, rows_of, subcommand_rows_of};
ghost use Rattle.command_words.specs.Matched.{Answers};
ghost use Rattle.command_words.specs.MachineAsked.{asked_by};
ghost use Rattle.command_words.specs.MachineMatched.{asked_in, check_in, differ_in, from_core_in, matched_by};

use crate::checks::check_of;
use crate::swsusp_machine::command::Command;
use clap::ArgMatches;

/// Returns the command that matches ask for.
pub(crate) fn matched<'a>(matches: &ArgMatches<'a>) -> Option<Command<'a>>
    ensures { Answers asked_by (asked_in (subcommand_rows_of matches.now)) result }
{
    let (name, values) = matches.subcommand()?;
    match name {
        "make" => Some(Command::Make),
        "draw" => Some(Command::Draw),
        "loader" => Some(Command::Loader),
        "core" => Some(Command::Core),
        "from-core" => reading(values),
        "show" => Some(Command::Show),
        "differ" => comparison(values),
        "check" => trial(values),
        _ => None,
    }
}

fn reading<'a>(values: &ArgMatches<'a>) -> Option<Command<'a>>
    ensures { Answers asked_by (from_core_in (rows_of (found_of values.now))) result }
{
    let slots = values.get_one::<u32>("slots");
    Some(Command::FromCore { slots })
}

fn comparison<'a>(values: &ArgMatches<'a>) -> Option<Command<'a>>
    ensures { Answers asked_by (differ_in (rows_of (found_of values.now))) result }
{
    let first = values.get_str("first")?;
    let second = values.get_str("second")?;
    Some(Command::Differ { first, second })
}

fn trial<'a>(values: &ArgMatches<'a>) -> Option<Command<'a>>
    ensures { Answers asked_by (check_in (rows_of (found_of values.now))) result }
{
    let swap = values.get_str("swap")?;
    let check = check_of(values.get_flag("any-kernel"));
    Some(Command::Check { check, swap })
}
