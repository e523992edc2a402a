ghost use Rattle.std.specs.Prelude.{◌≡◌};
ghost use Rattle.image_show.specs.Reads.{block_of_part};

/// A block of an image that was read.
#[derive(Clone, Copy, Debug, PartialEq, Eq)]
pub enum Part {
    /// A map; `maps` counts the maps up to it.
    Map { maps: u32, block: u64 },
    /// The info page, which is the first page of the image.
    Info { block: u64 },
    /// Another page of the image.
    Page { block: u64 },
}

impl Part {
    pub fn block(&self) -> u64
        ensures { result ≡ block_of_part self.now }
    {
        match *self {
            Part::Map { block, .. } => block,
            Part::Info { block } => block,
            Part::Page { block } => block,
        }
    }
}
