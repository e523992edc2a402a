ghost use Rattle.std.specs.Prelude.{◌≡◌, ◌<◌, ◌≤◌, ◌↔◌, [], ◌∷◌, ◌++◌, length};
ghost use Rattle.definitions.specs.SwapMap.{map_page};
ghost use Rattle.definitions.specs.declared.counts.TheConstants.{MAP_PAGE_ENTRIES};
ghost use Rattle.image_format.specs.MapPages.{MapEntries};
ghost use Rattle.image_format.specs.Writer.{kept_entries, IsKept};

use crate::map::ENTRIES;
use page_core::Page;
use std::marker::Model;

/// Whether a map page has room for another entry.
#[derive(Clone, Copy, Debug, PartialEq, Eq)]
pub enum Pushed {
    /// The page has its 511 entries.
    Full,
    Room,
}

/// A map page that is being filled. A contract sees its entries so far, and its link.
#[derive(Drop)]
pub struct MapWriter {
    page: Page,
    count: usize,
}

impl Model for MapWriter {
    ghost Value = { MapEntries };

    ghost view = { kept_entries };

    ghost invariant = { IsKept };
}

impl MapWriter {
    /// Makes a map page with no entry and no link.
    pub fn begin() -> MapWriter
        ensures entries { result.entries ≡ [] }
        ensures link { result.link ≡ 0 }
    {
        MapWriter {
            page: Page::zero(),
            count: 0,
        }
    }

    /// Adds an entry: the block of the image's next page.
    pub fn push(&mut self, block: u64) -> Pushed
        requires { length self.old.entries < MAP_PAGE_ENTRIES }
        ensures entries { self.new.entries ≡ self.old.entries ++ block ∷ [] }
        ensures link { self.new.link ≡ self.old.link }
        ensures full { (result ≡ Pushed.Full) ↔ (length self.new.entries ≡ MAP_PAGE_ENTRIES) }
        ensures room { (result ≡ Pushed.Room) ↔ (length self.new.entries < MAP_PAGE_ENTRIES) }
    {
        self.page.set_word(self.count, block);
        self.count += 1;
        room_after(self.count)
    }

    /// Sets the link: the block of the next map page (`next_swap`).
    pub fn link(&mut self, next: u64)
        ensures link { self.new.link ≡ next }
        ensures entries { self.new.entries ≡ self.old.entries }
    {
        self.page.set_word(ENTRIES, next);
    }

    /// Returns the page as it stands.
    pub fn page(&self) -> &Page
        ensures page { result.now ≡ map_page self.now.entries self.now.link }
        ensures room { length self.now.entries ≤ MAP_PAGE_ENTRIES }
    {
        &self.page
    }
}

/// Returns whether a page with `count` entries has room for more.
fn room_after(count: usize) -> Pushed
    requires { count ≤ MAP_PAGE_ENTRIES }
    ensures full { (result ≡ Pushed.Full) ↔ (count ≡ MAP_PAGE_ENTRIES) }
    ensures room { (result ≡ Pushed.Room) ↔ (count < MAP_PAGE_ENTRIES) }
{
    if count == ENTRIES {
        return Pushed::Full;
    }
    Pushed::Room
}
