use crate::answer::{Unparsed, not_plain, said};
use crate::swsusp_image::command_line::command_line;
use crate::swsusp_image::spelled::plain;
use std::alloc::Global;

/// A swap area.
#[derive(Clone, Copy)]
pub struct Area<'a> {
    /// The path of the swap file or block device.
    pub swap: &'a str,
    /// The block of the area's header.
    pub offset: u32,
}

/// The form in which something is printed.
#[derive(Clone, Copy)]
pub enum Form {
    /// In lines.
    Lines,
    /// As one JSON object.
    Json,
}

/// What the program is asked to do with the image of a swap area.
#[derive(Clone, Copy)]
pub enum Command<'a> {
    /// Reports what is wrong with the image.
    Check {
        area: Area<'a>,
        form: Form,
    },
    /// Prints what is written in the area.
    Show {
        area: Area<'a>,
        form: Form,
    },
    /// Writes the image as a stream of bytes.
    Stream(Area<'a>),
    /// Writes the saved page of a page frame.
    Page {
        area: Area<'a>,
        /// The number of the page frame.
        frame: u64,
    },
    /// Writes the image as a core file of its machine's memory.
    Core(Area<'a>),
    /// Reports where the image differs from that of another area.
    Differ {
        area: Area<'a>,
        /// The path of the other area, whose header is in the block of the same number.
        other: &'a str,
        /// Whether only the first difference is reported.
        first_only: bool,
    },
    /// Takes the image's mark back.
    Discard(Area<'a>),
}

impl<'a> Command<'a> {
    ghost use Rattle.std.specs.Prelude.{◌≡◌, IfErr, IfOk, Some, map, string_bytes};
    ghost use Rattle.command_words.specs.ImageAsked.{asked_by};
    ghost use Rattle.command_words.specs.Answer.{IsRefusedBy, SaysWords};
    ghost use Rattle.command_words.specs.ImageApp.{image_app};
    ghost use Rattle.command_words.specs.ImageRefused.{GivesHelp, not_plain};
    ghost use Rattle.command_words.specs.ImageWords.{command_of};

    /// Reads the command of a plain list of words, whose first is the program's name. No other list parses, even if
    /// clap takes it: clap's options may stand anywhere, and its numbers may have a sign and leading zeros. The error
    /// for such a list is a line that says so. A list that asks for help or the version gets that, and any other list
    /// gets what clap says of it.
    pub fn parse(alloc: Global, words: &'a [String]) -> Result<Command<'a>, Unparsed>
        ensures asks { IfOk result (λ command. command_of (map string_bytes words.now) ≡ Some (asked_by command)) }
        ensures refused { IfErr result (IsRefusedBy command_of (map string_bytes words.now)) }
        ensures words { IfErr result (SaysWords image_app not_plain (map string_bytes words.now)) }
        ensures help { IfErr result (GivesHelp (map string_bytes words.now)) }
    {
        let matches = match command_line(alloc)?.try_get_matches_from(words) {
            Ok(matches) => matches,
            Err(error) => return Err(said(alloc, &error)),
        };
        match plain(&matches, words) {
            Some(command) => Ok(command),
            None => Err(not_plain(
                alloc,
                "words: options go before SWAP, SWAP isn't empty nor begins with -, numbers have no sign or leading zero\n",
            )),
        }
    }
}
