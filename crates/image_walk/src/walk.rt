use crate::naming::{fault, remember, reserve};
use crate::{BlockFault, Limits, Visit};
use definitions::MAP_PAGE_ENTRIES;
use page_core::Page;

/// The entries of a map page (MAP_PAGE_ENTRIES). The link is the word after them.
const ENTRIES: usize = MAP_PAGE_ENTRIES as usize;

/// The block that is named next, and the reason if it may not be read.
#[derive(Clone, Copy, Debug, PartialEq, Eq)]
pub struct Named {
    pub block: u64,
    pub fault: Option<BlockFault>,
}

/// The position of a walk along the blocks that an image names: a value of fixed size. The set of the blocks that may
/// not be named again, one bit for each block, is lent to each call, with the same limits. The fields are public so
/// that a caller can keep a walk in a form of its own.
#[derive(Drop)]
pub struct Walk {
    /// The number of maps named so far.
    pub maps: u32,
    /// The block of the newest map, and its page.
    pub at: u64,
    pub map: Page,
    /// The newest map's next entry; 511 or more if none is left.
    pub entry: usize,
    /// The block of the next map.
    pub next: u64,
    /// Whether the newest map wasn't read, so that no map follows.
    pub over: bool,
}

impl Walk {
    ghost use Rattle.std.specs.Prelude.{◌≡◌, ◌≤◌, ◌<◌, ◌*◌, ◌+◌, ℕ, IfNone, IfSome, true, [], List, None, OnErr, Some};
    ghost use Rattle.std.specs.Prelude.{length};
    ghost use Rattle.image_walk.specs.Names.{IsAnswer, Name, fault_of, is_over, seen};
    ghost use Rattle.image_walk.specs.Walking.{IsAsked, Stands, Takes, after_map, block_asked, closed, opened};
    ghost use Rattle.image_walk.specs.Walking.{unread_left};
    ghost use Rattle.image_walk.specs.declared.visit.Visit.TheVariants.{Entry, Map};

    /// Begins a walk before the first map, which the header names. Clears what the set had.
    pub fn begin(limits: &Limits, named: &mut [u64], first: u64) -> Walk
        requires { limits.now.blocks ≤ 64 * length named.old }
        ensures start { Stands limits.now first result named.new [] }
        ensures room { length named.new ≡ length named.old }
    {
        reserve(limits, named);
        Walk {
            maps: 0,
            at: 0,
            map: Page::zero(),
            entry: ENTRIES,
            next: first,
            over: false,
        }
    }

    /// Returns a copy, a walk at the same position.
    pub(crate) fn copy(&self) -> Walk
        ensures { result ≡ self.now }
    {
        Walk {
            maps: self.maps,
            at: self.at,
            map: Page::from_bytes(self.map.as_bytes()),
            entry: self.entry,
            next: self.next,
            over: self.over,
        }
    }

    /// Returns the block that is named next. No block is named after a map that wasn't read.
    pub fn ask(&self, limits: &Limits, named: &[u64]) -> Option<Named>
        requires { limits.now.blocks ≤ 64 * length named.now }
        ensures asked { IfSome result (λ n. (first : ℕ) (h : List Name) → Stands limits.now first self.now named.now h →
            n.fault ≡ fault_of limits.now h n.block) }
        ensures block { IfSome result (λ n. block_asked self.now ≡ Some n.block) }
        ensures inside { IfSome result (λ n. IsAsked limits.now.blocks n) }
        ensures end { IfNone result ((first : ℕ) (h : List Name) → Stands limits.now first self.now named.now h →
            is_over h ≡ true) }
    {
        let block = self.block()?;
        Some(Named {
            block,
            fault: fault(limits, named, block),
        })
    }

    /// Moves past the block that is named next, given the outcome of its read, and its page if it was read.
    pub fn take(
        &mut self,
        limits: &Limits,
        named: &mut [u64],
        answer: Result<(), BlockFault>,
        page: &Page,
    ) -> Option<Visit>
        requires { limits.now.blocks ≤ 64 * length named.old }
        ensures step { IfSome result (λ visit. (first b : ℕ) (h : List Name) →
            Stands limits.now first self.old named.old h → block_asked self.old ≡ Some b →
            IsAnswer (fault_of limits.now h b) b (seen answer page.now) →
            Takes limits.now first h b answer self.old self.new named.new visit page.now) }
        ensures none { IfNone result (block_asked self.old ≡ None) }
        ensures fewer { (b : ℕ) → block_asked self.old ≡ Some b →
            OnErr answer (unread_left self.new < unread_left self.old) }
        ensures end { IfNone result ((first : ℕ) (h : List Name) → Stands limits.now first self.old named.old h →
            is_over h ≡ true) }
        ensures room { length named.new ≡ length named.old }
    {
        let _blocks = limits.blocks;
        let block = self.block()?;
        remember(limits, named, block);
        if self.entry < ENTRIES {
            Some(self.take_entry(block, answer))
        } else {
            Some(self.take_map(block, answer, page))
        }
    }

    fn block(&self) -> Option<u64>
        ensures { result ≡ block_asked self.now }
    {
        if self.entry < ENTRIES {
            Some(self.map.word(self.entry))
        } else if self.over {
            None
        } else {
            Some(self.next)
        }
    }

    fn take_entry(&mut self, block: u64, answer: Result<(), BlockFault>) -> Visit
        requires { self.old.entry < MAP_PAGE_ENTRIES }
        ensures visit { result ≡ Entry self.old.maps self.old.at self.old.entry block answer }
        ensures walk { self.new ≡ record self.old { entry = self.old.entry + 1 } }
    {
        let entry = self.entry;
        self.entry += 1;
        Visit::Entry {
            map: self.maps,
            at: self.at,
            entry: entry as u32,
            block,
            answer,
        }
    }

    fn take_map(&mut self, block: u64, answer: Result<(), BlockFault>, page: &Page) -> Visit
        ensures visit { result ≡ Map self.new.maps block answer }
        ensures walk { self.new ≡ after_map block answer page.now self.old }
    {
        self.maps = self.maps.saturating_add(1);
        self.at = block;
        match answer {
            Ok(()) => self.open(page),
            Err(_) => self.close(),
        }
        Visit::Map {
            map: self.maps,
            block,
            answer,
        }
    }

    /// Goes on with the entries of a map that was read.
    fn open(&mut self, page: &Page)
        ensures { self.new ≡ opened page.now self.old }
    {
        self.map = Page::from_bytes(page.as_bytes());
        self.entry = 0;
        self.next = page.word(ENTRIES);
    }

    /// Ends the chain.
    fn close(&mut self)
        ensures { self.new ≡ closed self.old }
    {
        self.next = 0;
        self.over = true;
    }
}
