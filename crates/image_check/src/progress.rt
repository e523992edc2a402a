use crate::Counts;

/// What later pages of an image are checked against.
#[derive(Clone, Copy)]
pub struct Progress {
    /// What the info page says, once it was read.
    pub counts: Option<Counts>,
    /// The last word of the previous page, unless that is the info page.
    pub previous: Option<u64>,
    /// How many numbers on the number pages have a data page, so far; unknown once one of these pages wasn't read.
    pub counted: Option<u64>,
}

impl Progress {
    ghost use Rattle.image_check.specs.Knows.{Knows};
    ghost use Rattle.std.specs.Prelude.{[]};

    /// Returns the progress before the first name.
    pub fn start() -> Progress
        ensures { Knows result [] }
    {
        Progress {
            counts: None,
            previous: None,
            counted: Some(0),
        }
    }
}
