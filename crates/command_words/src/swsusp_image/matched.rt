ghost use Rattle.std.specs.Prelude.{◌≡◌};
ghost use Rattle.clap.specs.Words.{found_of, rows_of, subcommand_rows_of};
ghost use Rattle.command_words.specs.Matched.{Answers};
ghost use Rattle.command_words.specs.ImageAsked.{area_by, asked_by, formed_by, is_json};
ghost use Rattle.command_words.specs.ImageMatched.{area_in, asked_in, check_in, core_in, differ_in, discard_in, formed_in};
ghost use Rattle.command_words.specs.ImageMatched.{matched_by, page_in, show_in, stream_in};

use crate::swsusp_image::command::{Area, Command, Form};
use clap::ArgMatches;

/// Returns the command that matches ask for.
pub(crate) fn matched<'a>(matches: &ArgMatches<'a>) -> Option<Command<'a>>
    ensures { Answers asked_by (asked_in (subcommand_rows_of matches.now)) result }
{
    let (name, values) = matches.subcommand()?;
    match name {
        "check" => checking(values),
        "show" => showing(values),
        "stream" => streaming(values),
        "page" => page(values),
        "core" => coring(values),
        "differ" => comparison(values),
        "discard" => discarding(values),
        _ => None,
    }
}

fn checking<'a>(values: &ArgMatches<'a>) -> Option<Command<'a>>
    ensures { Answers asked_by (check_in (rows_of (found_of values.now))) result }
{
    let (area, form) = formed(values)?;
    Some(Command::Check { area, form })
}

fn showing<'a>(values: &ArgMatches<'a>) -> Option<Command<'a>>
    ensures { Answers asked_by (show_in (rows_of (found_of values.now))) result }
{
    let (area, form) = formed(values)?;
    Some(Command::Show { area, form })
}

fn streaming<'a>(values: &ArgMatches<'a>) -> Option<Command<'a>>
    ensures { Answers asked_by (stream_in (rows_of (found_of values.now))) result }
{
    Some(Command::Stream(area_of(values)?))
}

fn coring<'a>(values: &ArgMatches<'a>) -> Option<Command<'a>>
    ensures { Answers asked_by (core_in (rows_of (found_of values.now))) result }
{
    Some(Command::Core(area_of(values)?))
}

fn discarding<'a>(values: &ArgMatches<'a>) -> Option<Command<'a>>
    ensures { Answers asked_by (discard_in (rows_of (found_of values.now))) result }
{
    Some(Command::Discard(area_of(values)?))
}

/// Returns an area, and the form of what is printed of it.
fn formed<'a>(values: &ArgMatches<'a>) -> Option<(Area<'a>, Form)>
    ensures { Answers formed_by (formed_in (rows_of (found_of values.now))) result }
{
    let area = area_of(values)?;
    let form = form_of(values.get_flag("json"));
    Some((area, form))
}

fn form_of(json: bool) -> Form
    ensures { is_json result ≡ json }
{
    if json { Form::Json } else { Form::Lines }
}

fn page<'a>(values: &ArgMatches<'a>) -> Option<Command<'a>>
    ensures { Answers asked_by (page_in (rows_of (found_of values.now))) result }
{
    let area = area_of(values)?;
    let frame = values.get_one::<u64>("frame")?;
    Some(Command::Page { area, frame })
}

fn comparison<'a>(values: &ArgMatches<'a>) -> Option<Command<'a>>
    ensures { Answers asked_by (differ_in (rows_of (found_of values.now))) result }
{
    let area = area_of(values)?;
    let other = values.get_str("other")?;
    let first_only = values.get_flag("first");
    Some(Command::Differ {
        area,
        other,
        first_only,
    })
}

fn area_of<'a>(values: &ArgMatches<'a>) -> Option<Area<'a>>
    ensures { Answers area_by (area_in (rows_of (found_of values.now))) result }
{
    let swap = values.get_str("swap")?;
    let offset = values.get_one::<u32>("offset")?;
    Some(Area { swap, offset })
}
