ghost use Rattle.std.specs.Prelude.{◌≡◌};
ghost use Rattle.image_json.specs.Values.{array_of};

use image_show::Fact;

/// The arrays of an object: there may be many facts of each of these kinds.
#[derive(Clone, Copy, Debug, PartialEq, Eq)]
pub enum Array {
    BadPages,
    Flags,
    BlockRuns,
    FrameRuns,
}

/// Returns the array that a fact is an item of.
pub(crate) fn array_of(fact: &Fact) -> Option<Array>
    ensures { result ≡ array_of fact.now }
{
    match *fact {
        Fact::BadPage(_) => Some(Array::BadPages),
        Fact::Flag(_) => Some(Array::Flags),
        Fact::BlockRun(..) => Some(Array::BlockRuns),
        Fact::FrameRun(..) => Some(Array::FrameRuns),
        _ => None,
    }
}
