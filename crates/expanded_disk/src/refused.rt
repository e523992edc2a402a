ghost use Rattle.definitions.specs.Bytes.{IsPage};

use page_core::Page;

/// A write that was refused.
#[derive(Drop)]
pub(crate) struct Refused {
    pub block: u32,
    pub page: Page,
    ghost whole: { IsPage page },
}

impl Refused {
    ghost use Rattle.std.specs.Prelude.{◌≡◌};

    pub fn new(block: u32, page: &Page) -> Refused
        ensures block { result.block ≡ block }
        ensures page { result.page ≡ page.now }
    {
        Refused {
            block,
            page: Page::from_bytes(page.as_bytes()),
        }
    }
}
