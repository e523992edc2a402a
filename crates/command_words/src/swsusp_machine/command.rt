use crate::answer::{Unparsed, not_plain, said};
use crate::swsusp_machine::command_line::command_line;
use crate::swsusp_machine::spelled::plain;
use plain_machine::IdentCheck;
use std::alloc::Global;

/// What the program is asked to do.
#[derive(Clone, Copy)]
pub enum Command<'a> {
    /// Plays a script, and writes the memory of the machine that runs at its end as a dump.
    Make,
    /// Plays a script, and writes a picture of what happens.
    Draw,
    /// Writes the dump of a machine just after boot.
    Loader,
    /// Writes a dump as a core file.
    Core,
    /// Writes the dump of a machine with the memory of a core file.
    FromCore {
        /// The machine's number of slots, from 2 to 131,072; else as many as page frames.
        slots: Option<u32>,
    },
    /// Prints what a dump says of its machine.
    Show,
    /// Prints the first difference of two dumps.
    Differ {
        /// The paths of the dumps.
        first: &'a str,
        second: &'a str,
    },
    /// Prints the reply that a resume of an image would give.
    Check {
        /// Whether the image must be this kernel's.
        check: IdentCheck,
        /// The path of the swap file or block device.
        swap: &'a str,
    },
}

impl<'a> Command<'a> {
    ghost use Rattle.std.specs.Prelude.{◌≡◌, IfErr, IfOk, Some, map, string_bytes};
    ghost use Rattle.command_words.specs.MachineAsked.{asked_by};
    ghost use Rattle.command_words.specs.Answer.{IsRefusedBy, SaysWords};
    ghost use Rattle.command_words.specs.MachineApp.{machine_app};
    ghost use Rattle.command_words.specs.MachineRefused.{not_plain};
    ghost use Rattle.command_words.specs.MachineWords.{command_of};

    /// Reads the command of a plain list of words, whose first is the program's name. No other list parses.
    pub fn parse(alloc: Global, words: &'a [String]) -> Result<Command<'a>, Unparsed>
        ensures asks { IfOk result (λ command. command_of (map string_bytes words.now) ≡ Some (asked_by command)) }
        ensures refused { IfErr result (IsRefusedBy command_of (map string_bytes words.now)) }
        ensures words { IfErr result (SaysWords machine_app not_plain (map string_bytes words.now)) }
    {
        let matches = match command_line(alloc)?.try_get_matches_from(words) {
            Ok(matches) => matches,
            Err(error) => return Err(said(alloc, &error)),
        };
        match plain(&matches, words) {
            Some(command) => Ok(command),
            None => Err(not_plain(
                alloc,
                "words: a path isn't empty nor begins with -, a number has no zero before it, and nothing but --any-kernel stands between a command and its paths\n",
            )),
        }
    }
}
