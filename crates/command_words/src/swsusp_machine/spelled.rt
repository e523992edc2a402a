ghost use Rattle.std.specs.Prelude.{◌≡◌, ◌↔◌, IfSome, IsSome, IsTrue, Some, map, string_bytes};
ghost use Rattle.clap.specs.Words.{subcommand_rows_of};
ghost use Rattle.command_words.specs.MachineMatched.{asked_in};
ghost use Rattle.command_words.specs.MachineAsked.{asked_by};
ghost use Rattle.command_words.specs.MachineSpelled.{Spells};
ghost use Rattle.command_words.specs.MachineWords.{Asked, check, command_of, from_core};

use crate::swsusp_machine::command::Command;
use crate::swsusp_machine::matched::matched;
use crate::words::{equal, is_path};
use clap::ArgMatches;
use itoa::Buffer;
use plain_machine::IdentCheck;

/// Returns the command that matches of words ask for, if the words are its plain ones.
pub(crate) fn plain<'a>(matches: &ArgMatches<'a>, words: &[String]) -> Option<Command<'a>>
    ensures asks { IfSome result (λ command. command_of (map string_bytes words.now) ≡ Some (asked_by command)) }
    ensures found { (asked : Asked) → asked_in (subcommand_rows_of matches.now) ≡ Some asked →
        command_of (map string_bytes words.now) ≡ Some asked → IsSome result }
{
    let command = matched(matches)?;
    if is_spelled(&command, words) {
        Some(command)
    } else {
        None
    }
}

/// Returns whether words, the first of which is the program's name, are the plain words of a command.
fn is_spelled(command: &Command<'_>, words: &[String]) -> bool
    ensures { IsTrue result ↔ (command_of (map string_bytes words.now) ≡ Some (asked_by command.now)) }
{
    match words {
        [_, words @ ..] => spells(command, words),
        [] => false,
    }
}

fn spells(command: &Command<'_>, words: &[String]) -> bool
    ensures { IsTrue result ↔ Spells (asked_by command.now) (map string_bytes words.now) }
{
    match *command {
        Command::Make => equal(words, &["make"]),
        Command::Draw => equal(words, &["draw"]),
        Command::Loader => equal(words, &["loader"]),
        Command::Core => equal(words, &["core"]),
        Command::FromCore { slots } => is_reading(slots, words),
        Command::Show => equal(words, &["show"]),
        Command::Differ { first, second } => {
            is_path(first) && is_path(second) && equal(words, &["differ", first, second])
        }
        Command::Check { check, swap } => is_check(check, swap, words),
    }
}

fn is_reading(slots: Option<u32>, words: &[String]) -> bool
    ensures { IsTrue result ↔ Spells (from_core slots) (map string_bytes words.now) }
{
    match slots {
        None => equal(words, &["from-core"]),
        Some(slots) => is_slotted(slots, words),
    }
}

fn is_slotted(slots: u32, words: &[String]) -> bool
    ensures { IsTrue result ↔ Spells (from_core (Some slots)) (map string_bytes words.now) }
{
    if slots < 2 || 131_072 < slots {
        return false;
    }
    let mut buffer = Buffer::new();
    equal(words, &["from-core", "--slots", buffer.format(slots)])
}

fn is_check(ident: IdentCheck, swap: &str, words: &[String]) -> bool
    ensures { IsTrue result ↔ Spells (check ident swap.now) (map string_bytes words.now) }
{
    if !is_path(swap) {
        return false;
    }
    match ident {
        IdentCheck::Compare => equal(words, &["check", swap]),
        IdentCheck::Skip => equal(words, &["check", "--any-kernel", swap]),
    }
}
