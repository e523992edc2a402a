ghost use Rattle.std.specs.Prelude.{◌≡◌};
ghost use Rattle.script.specs.Kinds.{kind_name};

use thiserror::Error;

/// Where a script is at fault, and how.
#[derive(Clone, Copy, Debug, PartialEq, Eq, Error)]
#[error("script line {line} {kind:?}")]
pub struct ScriptFault {
    /// The line's number, from 1 on, or 0 if the script is too long.
    pub line: u32,
    pub kind: FaultKind,
}

/// How a script is at fault. Of a line the first fault that applies is named, in this order.
#[derive(Clone, Copy, Debug, PartialEq, Eq)]
pub enum FaultKind {
    /// The script has more than 1,048,576 bytes.
    TooLong,
    /// A byte is neither LF nor one from 32 to 126.
    Byte,
    /// The first word is unknown, or a second word isn't the one that must follow it.
    Word,
    /// A setting follows an event.
    Late,
    /// Too many or too few words follow the first.
    Count,
    /// A word isn't digits, or is above 2^64 - 1.
    Number,
    /// A number is outside its range.
    Range,
    /// The line brings the number of events above 100,000.
    Events,
    /// The settings before the first event describe no hardware.
    Hardware,
}

/// Why a script wasn't read.
#[derive(Clone, Copy, Debug, PartialEq, Eq, Error)]
pub enum ParseStop {
    #[error("{0}")]
    Fault(ScriptFault),
    #[error("no memory")]
    NoMemory,
}

impl FaultKind {
    /// Returns the name that a note prints.
    pub fn name(self) -> &'static str
        ensures { result.now ≡ kind_name self }
    {
        match self {
            FaultKind::TooLong => "TooLong",
            FaultKind::Byte => "Byte",
            FaultKind::Word => "Word",
            FaultKind::Late => "Late",
            FaultKind::Count => "Count",
            FaultKind::Number => "Number",
            FaultKind::Range => "Range",
            FaultKind::Events => "Events",
            FaultKind::Hardware => "Hardware",
        }
    }
}
