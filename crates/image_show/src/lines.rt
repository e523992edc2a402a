ghost use Rattle.std.specs.Prelude.{◌≡◌, None, false};
ghost use Rattle.image_show.specs.Texts.{lines};

use crate::Fact;
use crate::form::Form;
use crate::text::line_of;
use byte_streams::{Sink, put_all};
use page_core::Failed;

/// A sink receives facts as lines.
impl<S: Sink> Form for S {
    ghost style = { lines };

    ghost written = { λ s. record { taken = S.taken s; last = None } };

    ghost faults = { λ s. S.faults s };

    ghost refused = { λ _. false };

    fn put(&mut self, fact: &Fact) -> Result<(), Failed> {
        put_all(self, line_of(fact).as_bytes())
    }
}
