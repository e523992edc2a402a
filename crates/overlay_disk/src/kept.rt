ghost use Rattle.std.specs.Prelude.{◌↔◌, IsTrue};
ghost use Rattle.definitions.specs.Bytes.{IsPage};

use page_core::Page;

/// A block that was written, with its page.
#[derive(Drop)]
pub(crate) struct Kept {
    pub block: u32,
    pub page: Page,
    ghost whole: { IsPage page },
}

impl Kept {
    ghost use Rattle.std.specs.Prelude.{◌≡◌};

    pub fn new(block: u32, page: &Page) -> Kept
        ensures block { result.block ≡ block }
        ensures page { result.page ≡ page.now }
    {
        Kept {
            block,
            page: Page::from_bytes(page.as_bytes()),
        }
    }
}
