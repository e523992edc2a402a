ghost use Rattle.std.specs.Prelude.{◌≡◌};
ghost use Rattle.swsusp_cli.specs.declared.stop.Stop.TheVariants as stop;

use crate::dump_input::no_dump;
use crate::reading::ReadStop;
use crate::replay::{no_script, unread};
use byte_streams::Sink;
use command_kit::{Status, no_memory};
use dump_file::{DumpFault, DumpStop};
use page_core::NoMemory;
use script::{ParseStop, ScriptFault};
use thiserror::Error;

/// Why a command has no input to work on.
#[derive(Clone, Copy, Debug, PartialEq, Eq, Error)]
pub enum Stop {
    #[error("the source failed")]
    Source,
    #[error("no memory")]
    Memory,
    #[error("{0}")]
    Script(ScriptFault),
    #[error("{0}")]
    Dump(DumpFault),
}

impl Stop {
    ghost use Rattle.std.specs.Prelude.{◌≡◌, ◌⊎◌};
    ghost use Rattle.definitions.specs.Disk.{HasRisen};
    ghost use Rattle.swsusp_cli.specs.Stops.{IsStopTold};
    ghost use Rattle.command_kit.specs.Causes.{HasCause};
    ghost use Rattle.command_kit.specs.View.{sink_view};

    /// Prints why, and returns the status that the command ends with.
    pub fn tell<O: Sink, N: Sink>(self, out: &mut O, note: &mut N) -> Status
        ensures told { IsStopTold self result
            (sink_view O.Sink out.old)
            (sink_view O.Sink out.new)
            (sink_view N.Sink note.old)
            (sink_view N.Sink note.new) }
        ensures cause { HasCause ((self ≡ stop.Source) ⊎ HasRisen (O.faults out.old) (O.faults out.new)
            ⊎ HasRisen (N.faults note.old) (N.faults note.new)) ⊥ result }
    {
        match self {
            Stop::Source => unread(note),
            Stop::Memory => no_memory().tell(out, note),
            Stop::Script(fault) => no_script(fault).tell(out, note),
            Stop::Dump(fault) => no_dump(fault).tell(out, note),
        }
    }
}

impl From<NoMemory> for Stop {
    ghost from_gives = { λ _ result. result ≡ stop.Memory };

    fn from(_: NoMemory) -> Stop {
        Stop::Memory
    }
}

impl From<ReadStop> for Stop {
    ghost use Rattle.swsusp_cli.specs.Stops.{read_stop};

    ghost from_gives = { λ why result. result ≡ read_stop why };

    fn from(why: ReadStop) -> Stop {
        match why {
            ReadStop::Fault => Stop::Source,
            ReadStop::NoMemory => Stop::Memory,
        }
    }
}

impl From<ParseStop> for Stop {
    ghost use Rattle.swsusp_cli.specs.Stops.{parse_stop};

    ghost from_gives = { λ why result. result ≡ parse_stop why };

    fn from(why: ParseStop) -> Stop {
        match why {
            ParseStop::Fault(fault) => Stop::Script(fault),
            ParseStop::NoMemory => Stop::Memory,
        }
    }
}

impl From<DumpStop> for Stop {
    ghost use Rattle.swsusp_cli.specs.Stops.{dump_stop};

    ghost from_gives = { λ why result. result ≡ dump_stop why };

    fn from(why: DumpStop) -> Stop {
        match why {
            DumpStop::Fault(fault) => Stop::Dump(fault),
            DumpStop::SourceFault => Stop::Source,
            DumpStop::NoMemory => Stop::Memory,
        }
    }
}
