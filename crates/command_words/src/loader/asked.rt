ghost use Rattle.std.specs.Prelude.{◌≡◌, Some, None, IfSome, IfNone, map, option_map, string_bytes};
ghost use Rattle.command_words.specs.LoaderGiven.{asked_by, given_by, wanted_by};
ghost use Rattle.command_words.specs.LoaderWords.{asked_of, no_options, options_in, wanted_of};

use crate::loader::options::{MOST_EXTENTS, MOST_ZONES, Options};
use crate::words::is_path;
use arrayvec::ArrayVec;

/// One more than the most options: the offset, the tables, zones and extents.
const MOST_READS: u32 = 83;

/// Which dump is wanted of an image.
#[derive(Clone, Copy, Debug, PartialEq, Eq)]
pub enum Wanted {
    /// The dump of a loader.
    Loader,
    /// The dump of the machine that was saved. Its tables are in the image from these page frames on, or aren't.
    Machine(Option<(u32, u32)>),
}

/// A dump that is asked for.
#[derive(Drop)]
pub struct Asked<'a> {
    pub wanted: Wanted,
    /// The path of the swap file or block device.
    pub swap: &'a str,
    /// The block of the area's header.
    pub offset: u32,
    pub zones: ArrayVec<(u32, u32), MOST_ZONES>,
    pub extents: ArrayVec<(u32, u32, u32), MOST_EXTENTS>,
}

/// Reads the dump that a plain list of words asks for, whose first word is the program's name.
pub fn parse(words: &[String]) -> Option<Asked<'_>>
    ensures asked { IfSome result (λ asked. asked_of (map string_bytes words.now) ≡ Some (asked_by asked)) }
    ensures none { IfNone result (asked_of (map string_bytes words.now) ≡ None) }
{
    let [_, command, words @ ..] = words else {
        return None;
    };
    let [options @ .., swap] = words else {
        return None;
    };
    if !is_path(swap.as_str()) {
        return None;
    }
    let options = options_in(options)?;
    let wanted = wanted_of(command.as_str(), options.tables)?;
    Some(Asked {
        wanted,
        swap: swap.as_str(),
        offset: options.offset.unwrap_or(0),
        zones: options.zones,
        extents: options.extents,
    })
}

/// Returns which dump a command wants. For a loader no tables may be given.
fn wanted_of(command: &str, tables: Option<(u32, u32)>) -> Option<Wanted>
    ensures { option_map wanted_by result ≡ wanted_of command.now tables }
{
    match command {
        "loader" => match tables {
            None => Some(Wanted::Loader),
            Some(_) => None,
        },
        "machine" => Some(Wanted::Machine(tables)),
        _ => None,
    }
}

/// Reads words as options.
fn options_in(words: &[String]) -> Option<Options>
    ensures given { IfSome result (λ given.
        options_in 83 no_options (map string_bytes words.now) ≡ Some (given_by given)) }
    ensures none { IfNone result (options_in 83 no_options (map string_bytes words.now) ≡ None) }
{
    let mut given = Options::new();
    let mut rest = words;
    for _ in 0..MOST_READS {
        if rest.is_empty() {
            return Some(given);
        }
        rest = given.read(rest)?;
    }
    None
}
