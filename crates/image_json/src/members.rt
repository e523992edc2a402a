ghost use Rattle.std.specs.Prelude.{◌≡◌, ◌++◌, [], None, Some, IfOk, OnOk, OnErr, string_bytes};
ghost use Rattle.image_json.specs.Pieces.{closing, members, piece};

use crate::pieces::{closing, piece};
use image_show::{Fact, Form};
use page_core::Failed;
use std::alloc::{AllocError, Global};

/// Facts as the members of an object, in memory.
#[derive(Drop)]
pub(crate) struct Members {
    alloc: Global,
    /// The object so far.
    pub(crate) text: String,
    /// The last fact.
    pub(crate) last: Option<Fact>,
    refused: bool,
}

impl Members {
    /// Returns an object without members.
    pub(crate) fn new(alloc: Global) -> Members
        ensures text { string_bytes result.text ≡ [] }
        ensures last { result.last ≡ None }
    {
        Members {
            alloc,
            text: String::new(alloc),
            last: None,
            refused: false,
        }
    }

    /// Returns the whole object.
    pub(crate) fn ended(self) -> Result<String, AllocError>
        ensures { IfOk result (λ text. string_bytes text ≡ string_bytes self.text ++ closing self.last) }
    {
        let Members { mut text, last, .. } = self;
        text.push_str(closing(&last))?;
        Ok(text)
    }
}

impl Form for Members {
    ghost style = { members };

    ghost written = { λ m. record { taken = Some (string_bytes m.text); last = m.last } };

    ghost faults = { λ _. 0 };

    ghost refused = { λ m. m.refused };

    fn put(&mut self, fact: &Fact) -> Result<(), Failed> {
        match push_piece(self.alloc, &mut self.text, &self.last, fact) {
            Ok(()) => {
                self.last = Some(*fact);
                Ok(())
            }
            Err(AllocError) => {
                self.refused = true;
                Err(Failed)
            }
        }
    }
}

/// Appends what is printed for a fact after the one before it.
fn push_piece(
    alloc: Global,
    text: &mut String,
    last: &Option<Fact>,
    fact: &Fact,
) -> Result<(), AllocError>
    ensures added { OnOk result (string_bytes text.new ≡ string_bytes text.old ++ piece last.now fact.now) }
    ensures same { OnErr result (string_bytes text.new ≡ string_bytes text.old) }
{
    let piece = piece(alloc, last, fact)?;
    text.push_str(piece.as_str())
}
