use crate::answer;
use page_core::NoMemory;
use std::alloc::AllocError;
use thiserror::Error;

/// Why a list of words isn't a command.
#[derive(Debug, Drop, Error)]
pub enum Unparsed {
    /// The list isn't plain. The text says what is wrong with it, or what was asked for.
    #[error("{0}")]
    Words(String),
    /// Memory was refused.
    #[error("no memory")]
    NoMemory,
}

impl From<NoMemory> for Unparsed {
    ghost use Rattle.std.specs.Prelude.{◌≡◌};
    ghost use Rattle.command_words.specs.declared.swsusp.unparsed.Unparsed.TheVariants as unparsed;

    ghost from_gives = { λ _ why. why ≡ unparsed.NoMemory };

    fn from(_: NoMemory) -> Unparsed {
        Unparsed::NoMemory
    }
}

impl From<AllocError> for Unparsed {
    ghost use Rattle.std.specs.Prelude.{◌≡◌};
    ghost use Rattle.command_words.specs.declared.swsusp.unparsed.Unparsed.TheVariants as unparsed;

    ghost from_gives = { λ _ why. why ≡ unparsed.NoMemory };

    fn from(_: AllocError) -> Unparsed {
        Unparsed::NoMemory
    }
}

impl From<answer::Unparsed> for Unparsed {
    ghost use Rattle.std.specs.Prelude.{◌≡◌};
    ghost use Rattle.command_words.specs.Refused.{without_help};

    ghost from_gives = { λ answer why. why ≡ without_help answer };

    fn from(answer: answer::Unparsed) -> Unparsed {
        match answer {
            answer::Unparsed::Help(text) | answer::Unparsed::Words(text) => Unparsed::Words(text),
            answer::Unparsed::NoMemory => Unparsed::NoMemory,
        }
    }
}
