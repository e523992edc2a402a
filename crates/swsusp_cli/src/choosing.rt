ghost use Rattle.std.specs.Prelude.{IfOk, map, string_bytes};
ghost use Rattle.swsusp_cli.specs.Choice.{IsChoice, IsFile};

use command_words::swsusp::{Command, Unparsed};
use page_core::NoMemory;
use std::alloc::Global;

/// Which disk a run works on.
#[derive(Drop)]
pub enum Choice {
    /// A swap file or a block device.
    File(String),
    /// A disk in memory with the given number of blocks.
    Memory(u32),
}

/// The number of blocks of the disk in memory that a script or a drill is played over.
const MEMORY_BLOCKS: u32 = 16384;

/// Returns the disk that a list of words asks for: for an export, and if the words don't parse, one block in memory.
pub fn swap_name(alloc: Global, words: &[String]) -> Result<Choice, NoMemory>
    ensures { IfOk result (IsChoice (map string_bytes words.now)) }
{
    match Command::parse(alloc, words) {
        Err(Unparsed::NoMemory) => Err(NoMemory),
        Err(Unparsed::Words(_)) | Ok(Command::Export) => Ok(Choice::Memory(1)),
        Ok(Command::Replay | Command::Drill(_)) => Ok(Choice::Memory(MEMORY_BLOCKS)),
        Ok(Command::Inspect { swap, .. }) => file(alloc, swap),
        Ok(Command::Hibernate { swap, .. }) => file(alloc, swap),
        Ok(Command::Resume { swap, .. }) => file(alloc, swap),
        Ok(Command::Import { swap }) => file(alloc, swap),
    }
}

fn file(alloc: Global, path: &str) -> Result<Choice, NoMemory>
    ensures { IfOk result (IsFile path.now) }
{
    match String::from_str(alloc, path) {
        Ok(path) => Ok(Choice::File(path)),
        Err(_) => Err(NoMemory),
    }
}
