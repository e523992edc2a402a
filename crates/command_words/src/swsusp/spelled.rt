ghost use Rattle.std.specs.Prelude.{◌≡◌, ◌↔◌, IfSome, IsSome, IsTrue, Some, map, string_bytes};
ghost use Rattle.clap.specs.Words.{subcommand_rows_of};
ghost use Rattle.command_words.specs.Matched.{asked_in};
ghost use Rattle.command_words.specs.Asked.{asked_by};
ghost use Rattle.command_words.specs.Spelled.{IsSized, Spells};
ghost use Rattle.command_words.specs.Words.{Asked, command_of, drill, hibernate, inspect, resume};

use crate::swsusp::command::Command;
use crate::swsusp::matched::matched;
use crate::words::{equal, is_path};
use clap::ArgMatches;
use itoa::Buffer;
use page_core::Format;
use plain_machine::IdentCheck;

/// Returns the command that matches of words ask for, if the words are its plain ones.
pub(crate) fn plain<'a>(matches: &ArgMatches<'a>, words: &[String]) -> Option<Command<'a>>
    ensures asks { IfSome result (λ command. command_of (map string_bytes words.now) ≡ Some (asked_by command)) }
    ensures found { (asked : Asked) → asked_in (subcommand_rows_of matches.now) ≡ Some asked →
        command_of (map string_bytes words.now) ≡ Some asked → IsSome result }
{
    let command = matched(matches)?;
    if is_spelled(&command, words) {
        Some(command)
    } else {
        None
    }
}

/// Returns whether words, the first of which is the program's name, are the plain words of a command.
fn is_spelled(command: &Command<'_>, words: &[String]) -> bool
    ensures { IsTrue result ↔ (command_of (map string_bytes words.now) ≡ Some (asked_by command.now)) }
{
    match words {
        [_, words @ ..] => spells(command, words),
        [] => false,
    }
}

fn spells(command: &Command<'_>, words: &[String]) -> bool
    ensures { IsTrue result ↔ Spells (asked_by command.now) (map string_bytes words.now) }
{
    match *command {
        Command::Inspect { offset, swap } => is_inspection(offset, swap, words),
        Command::Hibernate { format, size, swap } => is_hibernation(format, size, swap, words),
        Command::Resume { check, swap } => is_resumption(check, swap, words),
        Command::Replay => equal(words, &["replay"]),
        Command::Drill(number) => is_drill(number, words),
        Command::Export => equal(words, &["export"]),
        Command::Import { swap } => is_path(swap) && equal(words, &["import", swap]),
    }
}

fn is_inspection(offset: u32, swap: &str, words: &[String]) -> bool
    ensures { IsTrue result ↔ Spells (inspect offset swap.now) (map string_bytes words.now) }
{
    if !is_path(swap) {
        return false;
    }
    if offset == 0 && equal(words, &["inspect", swap]) {
        return true;
    }
    let mut buffer = Buffer::new();
    equal(words, &["inspect", "--offset", buffer.format(offset), swap])
}

fn is_hibernation(format: Format, size: Option<u64>, swap: &str, words: &[String]) -> bool
    ensures { IsTrue result ↔ Spells (hibernate format size swap.now) (map string_bytes words.now) }
{
    if !is_path(swap) {
        return false;
    }
    match size {
        None => match format {
            Format::Plain => equal(words, &["hibernate", swap]),
            Format::SkipZeros => equal(words, &["hibernate", "--skip-zeros", swap]),
        },
        Some(size) => {
            let mut buffer = Buffer::new();
            is_sized(format, buffer.format(size), swap, words)
        }
    }
}

fn is_sized(format: Format, size: &str, swap: &str, words: &[String]) -> bool
    ensures { IsTrue result ↔ IsSized format size.now swap.now (map string_bytes words.now) }
{
    match format {
        Format::Plain => equal(words, &["hibernate", "--image-size", size, swap]),
        Format::SkipZeros => {
            equal(
                words,
                &["hibernate", "--skip-zeros", "--image-size", size, swap],
            ) || equal(
                words,
                &["hibernate", "--image-size", size, "--skip-zeros", swap],
            )
        }
    }
}

fn is_resumption(check: IdentCheck, swap: &str, words: &[String]) -> bool
    ensures { IsTrue result ↔ Spells (resume check swap.now) (map string_bytes words.now) }
{
    if !is_path(swap) {
        return false;
    }
    match check {
        IdentCheck::Compare => equal(words, &["resume", swap]),
        IdentCheck::Skip => equal(words, &["resume", "--any-kernel", swap]),
    }
}

fn is_drill(number: u32, words: &[String]) -> bool
    ensures { IsTrue result ↔ Spells (drill number) (map string_bytes words.now) }
{
    if number < 1 || 2000 < number {
        return false;
    }
    let mut buffer = Buffer::new();
    equal(words, &["drill", buffer.format(number)])
}
