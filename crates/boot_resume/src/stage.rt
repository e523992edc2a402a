use crate::call::{Call, Left};

/// The purpose of the answer to the pending call.
#[derive(Clone, Copy, Debug, PartialEq, Eq)]
pub enum Stage {
    /// Before anything is read.
    FirstSync,
    Header,
    /// The header block is written with its mark taken back.
    TakeBack,
    SettleBack,
    /// A map, the info page or a number page is read for the first time.
    ListMap,
    ListPage,
    /// The map of a number page, or the number page itself, is read again.
    NumberMap,
    NumberPage,
    /// A map or a data page is read.
    DataMap,
    DataPage,
    /// A page is handed out.
    Place,
    Ended,
}

/// A call, and the purpose of its answer.
#[derive(Clone, Copy, Debug, PartialEq, Eq)]
pub struct Move {
    pub stage: Stage,
    pub call: Call,
}

impl Stage {
    ghost use Rattle.std.specs.Prelude.{◌≡◌};
    ghost use Rattle.boot_resume.specs.Asked.{left_at};

    /// Returns what a failure of the pending call leaves.
    pub(crate) fn left(self) -> Left
        ensures { result ≡ left_at self }
    {
        match self {
            Stage::FirstSync => Left::Same,
            Stage::Header => Left::Same,
            Stage::TakeBack => Left::Unsure,
            Stage::SettleBack => Left::Unsure,
            _ => Left::Gone,
        }
    }
}
