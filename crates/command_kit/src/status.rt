/// How a run ended. Its number is the program's exit status.
#[derive(Clone, Copy, Debug, PartialEq, Eq)]
pub enum Status {
    Done,
    /// The command was refused.
    Refused,
    /// The words don't parse.
    Words,
    /// The input isn't what the command reads.
    Input,
    /// The input or an output failed.
    Stream,
    /// The disk failed.
    Device,
    /// Memory was refused.
    Memory,
}

impl Status {
    ghost use Rattle.std.specs.Prelude.{◌≡◌};
    ghost use Rattle.command_kit.specs.ExitStatus.{exit_status};

    /// Returns the exit status, 0 to 6.
    pub fn code(self) -> u8
        ensures { result ≡ exit_status self }
    {
        self as u8
    }
}
