ghost use Rattle.std.specs.Prelude.{◌≡◌, ◌↔◌, ◌++◌, [], codes, IfSome, IsSome, IsTrue, Some, map, string_bytes};
ghost use Rattle.clap.specs.Words.{subcommand_rows_of};
ghost use Rattle.command_words.specs.ImageMatched.{asked_in};
ghost use Rattle.command_words.specs.ImageAsked.{area_by, asked_by, is_json};
ghost use Rattle.command_words.specs.ImageSpelled.{IsArea, IsSpelledFlagged, IsSpelledOver, IsSpelledWith, Spells};
ghost use Rattle.command_words.specs.ImageWords.{Asked, command_of, differ};

use crate::swsusp_image::command::{Area, Command, Form};
use crate::swsusp_image::matched::matched;
use crate::words::{equal, is_path};
use clap::ArgMatches;
use itoa::Buffer;

/// Returns the command that matches of words ask for, if the words are its plain ones.
pub(crate) fn plain<'a>(matches: &ArgMatches<'a>, words: &[String]) -> Option<Command<'a>>
    ensures asks { IfSome result (λ command. command_of (map string_bytes words.now) ≡ Some (asked_by command)) }
    ensures found { (asked : Asked) → asked_in (subcommand_rows_of matches.now) ≡ Some asked →
        command_of (map string_bytes words.now) ≡ Some asked → IsSome result }
{
    let command = matched(matches)?;
    if is_spelled(&command, words) {
        Some(command)
    } else {
        None
    }
}

/// Returns whether words, the first of which is the program's name, are the plain words of a command.
fn is_spelled(command: &Command<'_>, words: &[String]) -> bool
    ensures { IsTrue result ↔ (command_of (map string_bytes words.now) ≡ Some (asked_by command.now)) }
{
    match words {
        [_, words @ ..] => spells(command, words),
        [] => false,
    }
}

fn spells(command: &Command<'_>, words: &[String]) -> bool
    ensures { IsTrue result ↔ Spells (asked_by command.now) (map string_bytes words.now) }
{
    match *command {
        Command::Check { area, form } => spells_in(form, area, words, "check"),
        Command::Show { area, form } => spells_in(form, area, words, "show"),
        Command::Stream(area) => spells_over(area, words, "stream", &[]),
        Command::Page { area, frame } => {
            let mut buffer = Buffer::new();
            spells_over(area, words, "page", &[buffer.format(frame)])
        }
        Command::Core(area) => spells_over(area, words, "core", &[]),
        Command::Differ {
            area,
            other,
            first_only,
        } => spells_differ(first_only, area, words, other),
        Command::Discard(area) => spells_over(area, words, "discard", &[]),
    }
}

/// Returns whether words are a command's name, and the plain words of an area and of a form.
fn spells_in(form: Form, area: Area<'_>, words: &[String], name: &str) -> bool
    ensures { IsTrue result ↔ IsArea (area_by area.entry) ×
        IsSpelledWith (is_json form) (area_by area.entry) name.now (codes "--json") [] (map string_bytes words.now) }
{
    match form {
        Form::Lines => spells_over(area, words, name, &[]),
        Form::Json => spells_flagged(area, words, name, "--json", &[]),
    }
}

/// Returns whether words are `differ`, the plain words of an area, perhaps `--first` among its options, and a path.
fn spells_differ(first_only: bool, area: Area<'_>, words: &[String], other: &str) -> bool
    ensures { IsTrue result ↔ Spells (differ first_only (area_by area.entry) other.now) (map string_bytes words.now) }
{
    if !is_path(other) {
        return false;
    }
    if first_only {
        spells_flagged(area, words, "differ", "--first", &[other])
    } else {
        spells_over(area, words, "differ", &[other])
    }
}

/// Returns whether words are a command's name, the plain words of an area, a flag among its options, and `own`.
fn spells_flagged<'a>(
    area: Area<'a>,
    words: &[String],
    name: &'a str,
    flag: &'a str,
    own: &[&'a str],
) -> bool
    ensures { IsTrue result ↔ IsArea (area_by area.entry) ×
        IsSpelledFlagged (area_by area.entry) name.now flag.now (map (λ text. text.now) own.now)
        (map string_bytes words.now) }
{
    if !is_path(area.swap) {
        return false;
    }
    if area.offset == 0 && are(words, &[name, flag, area.swap], own) {
        return true;
    }
    let mut buffer = Buffer::new();
    let number = buffer.format(area.offset);
    if are(words, &[name, flag, "--offset", number, area.swap], own) {
        return true;
    }
    are(words, &[name, "--offset", number, flag, area.swap], own)
}

/// Returns whether words are a command's name, the plain words of an area, and `own`.
fn spells_over(area: Area<'_>, words: &[String], name: &str, own: &[&str]) -> bool
    ensures { IsTrue result ↔ IsArea (area_by area.entry) ×
        IsSpelledOver (area_by area.entry) name.now (map (λ text. text.now) own.now) (map string_bytes words.now) }
{
    if !is_path(area.swap) {
        return false;
    }
    if area.offset == 0 && are(words, &[name, area.swap], own) {
        return true;
    }
    let mut buffer = Buffer::new();
    let number = buffer.format(area.offset);
    are(words, &[name, "--offset", number, area.swap], own)
}

/// Returns whether words are the texts `these` and then `those`.
fn are(words: &[String], these: &[&str], those: &[&str]) -> bool
    ensures { IsTrue result ↔ (map string_bytes words.now
        ≡ map (λ text. text.now) these.now ++ map (λ text. text.now) those.now) }
{
    if words.len() < these.len() {
        return false;
    }
    let (front, back) = words.split_at(these.len());
    equal(front, these) && equal(back, those)
}
