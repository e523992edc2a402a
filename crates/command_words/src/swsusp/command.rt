use crate::answer::{not_plain, said};
use crate::swsusp::command_line::command_line;
use crate::swsusp::spelled::plain;
use crate::swsusp::unparsed::Unparsed;
use page_core::Format;
use plain_machine::IdentCheck;
use std::alloc::Global;

/// What the program is asked to do.
#[derive(Clone, Copy)]
pub enum Command<'a> {
    /// Prints what a block says of the swap area whose header it is.
    Inspect {
        /// The number of the block, the area's offset in its file.
        offset: u32,
        /// The path of the swap file or block device.
        swap: &'a str,
    },
    /// Lets the machine of a memory dump hibernate.
    Hibernate {
        /// Which pages the image has.
        format: Format,
        /// The most saveable page frames wanted.
        size: Option<u64>,
        /// The path of the swap file or block device.
        swap: &'a str,
    },
    /// Resumes the image of a swap area into the machine of a memory dump.
    Resume {
        /// Whether the image must be of the machine's own kernel.
        check: IdentCheck,
        /// The path of the swap file or block device.
        swap: &'a str,
    },
    /// Plays a script over a disk in memory, and prints each reply.
    Replay,
    /// Plays the run that is made from a number, 1 to 2000, over a disk in memory, and sums up its replies.
    Drill(u32),
    /// Writes the image of a memory dump as a stream of bytes.
    Export,
    /// Writes a stream of bytes into a swap area as an image.
    Import {
        /// The path of the swap file or block device.
        swap: &'a str,
    },
}

impl<'a> Command<'a> {
    ghost use Rattle.std.specs.Prelude.{◌≡◌, IfErr, IfOk, Some, map, string_bytes};
    ghost use Rattle.command_words.specs.Asked.{HasNumber, asked_by};
    ghost use Rattle.command_words.specs.Refused.{IsRefusedBy, SaysWords};
    ghost use Rattle.command_words.specs.Words.{command_of};

    /// Reads the command of a plain list of words, whose first is the program's name. No other list parses, even if
    /// clap takes it: clap's options may stand anywhere, and its numbers may have a sign and leading zeros.
    pub fn parse(alloc: Global, words: &'a [String]) -> Result<Command<'a>, Unparsed>
        ensures asks { IfOk result (λ command. command_of (map string_bytes words.now) ≡ Some (asked_by command)) }
        ensures number { IfOk result HasNumber }
        ensures refused { IfErr result (IsRefusedBy (map string_bytes words.now)) }
        ensures words { IfErr result (SaysWords (map string_bytes words.now)) }
    {
        let matches = match command_line(alloc)?.try_get_matches_from(words) {
            Ok(matches) => matches,
            Err(error) => return Err(Unparsed::from(said(alloc, &error))),
        };
        match plain(&matches, words) {
            Some(command) => Ok(command),
            None => Err(Unparsed::from(not_plain(alloc, "words\n"))),
        }
    }
}
