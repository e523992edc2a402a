//! Why a list of words isn't a command, for a program that tells help from mistakes.
ghost use Rattle.std.specs.Prelude.{◌≡◌};
ghost use Rattle.clap.specs.Values.{kind_of};
ghost use Rattle.clap.specs.declared.error.kind.ErrorKind.TheVariants as kind;
ghost use Rattle.command_words.specs.Answer.{IsLine, Tells};
ghost use Rattle.command_words.specs.declared.answer.Unparsed.TheVariants as answer;

use clap::error::ErrorKind;
use page_core::NoMemory;
use std::alloc::{AllocError, Global};
use thiserror::Error;

/// Why a list of words isn't a command.
#[derive(Debug, Drop, Error)]
pub enum Unparsed {
    /// Help or the version, which the words ask for.
    #[error("{0}")]
    Help(String),
    /// The list isn't plain. The text says what is wrong with it.
    #[error("{0}")]
    Words(String),
    /// Memory was refused.
    #[error("no memory")]
    NoMemory,
}

impl From<NoMemory> for Unparsed {
    ghost use Rattle.std.specs.Prelude.{◌≡◌};
    ghost use Rattle.command_words.specs.declared.answer.Unparsed.TheVariants as answer;

    ghost from_gives = { λ _ why. why ≡ answer.NoMemory };

    fn from(_: NoMemory) -> Unparsed {
        Unparsed::NoMemory
    }
}

impl From<AllocError> for Unparsed {
    ghost use Rattle.std.specs.Prelude.{◌≡◌};
    ghost use Rattle.command_words.specs.declared.answer.Unparsed.TheVariants as answer;

    ghost from_gives = { λ _ why. why ≡ answer.NoMemory };

    fn from(_: AllocError) -> Unparsed {
        Unparsed::NoMemory
    }
}

/// Returns what clap says of words.
pub fn said(alloc: Global, error: &clap::Error) -> Unparsed
    ensures no_memory { kind_of error.now ≡ kind.OutOfMemory → result ≡ answer.NoMemory }
    ensures tells { Tells (kind_of error.now) result }
{
    if error.kind() == ErrorKind::OutOfMemory {
        return Unparsed::NoMemory;
    }
    let Ok(text) = format!(in alloc; "{error}") else {
        return Unparsed::NoMemory;
    };
    if error.use_stderr() {
        Unparsed::Words(text)
    } else {
        Unparsed::Help(text)
    }
}

/// Returns the answer to a list that clap takes but that isn't plain: this line.
pub fn not_plain(alloc: Global, line: &str) -> Unparsed
    ensures { IsLine line.now result }
{
    match String::from_str(alloc, line) {
        Ok(text) => Unparsed::Words(text),
        Err(_) => Unparsed::NoMemory,
    }
}
