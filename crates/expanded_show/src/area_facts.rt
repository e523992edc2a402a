ghost use Rattle.std.specs.Prelude.{[], List, ℕ};
ghost use Rattle.image_show.specs.declared.facts.fact.Fact.{Fact as OneFact};

use std::marker::Brand;

/// What an area itself says, which is its header block and where its image lies, and the form that receives it. The
/// implementation is chosen where `Brand` is passed.
pub trait AreaFacts {
    ghost which: { ℕ };

    ghost header: { List OneFact };

    ghost blocks: { List OneFact };
}

impl AreaFacts for Brand {
    ghost which = { 0 };

    ghost header = { [] };

    ghost blocks = { [] };
}
