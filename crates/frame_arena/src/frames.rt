ghost use Rattle.std.specs.Prelude.{◌≡◌, ℕ, ◌+◌, ◌*◌, ◌^◌, ◌<◌, ◌≤◌, List, length, replicate, ◌∷◌, ◌++◌, []};
ghost use Rattle.std.specs.Prelude.{slice_index, vec_len, vec_capacity, nat_eq, IfOk, IsTrue, All};
ghost use Rattle.std.specs.Cmp.Lexicographic.{pointwise};
ghost use Rattle.std.specs.Borrow.{sem};
ghost use Rattle.definitions.specs.Bytes.{IsPage, word, with_word, number_at, with_number, zero_page, filled_page};
ghost use Rattle.definitions.specs.Tables.{frame, with_frame};
ghost use Rattle.definitions.specs.FrameRuns.{run_at, with_run};
ghost use Rattle.frame_arena.specs.Places.{contents, shared_page, AreKept};
ghost use Rattle.definitions.specs.declared.counts.TheConstants.{WORDS_PER_PAGE};

use page_core::{NoMemory, Page};
use std::alloc::Global;
use std::marker::Model;

/// The byte that fills the memory which no image may touch, when the kernel of a resume starts.
pub const FILLER: u8 = 165;

/// The place of the page of zeros.
const ZEROS: u32 = 0;

/// The place of the page in which each byte is `FILLER`.
const FILLED: u32 = 1;

/// The number of pages, from the first on, that any number of page frames may share.
const SHARED: u32 = 2;

/// The page frames of a machine, numbered from 0. All memory that they can need is allocated when they are made, and
/// none of it is touched before a byte of its page frame is written: until then, and while it is set to zeros or to
/// `FILLER` as a whole, a page frame costs one entry of a table.
#[derive(Drop)]
pub struct Frames {
    /// The place in `pages` of each page frame's page.
    places: Vec<u32>,
    /// The shared pages, and then the pages of the page frames that were written, in the order of their first writes.
    pages: Vec<Page>,
}

impl Model for Frames {
    ghost Value = { List (List ℕ) };

    ghost view = { λ f. contents f.places.items f.pages.items };

    ghost invariant = { λ f. AreKept f.places.items f.pages.items (vec_capacity f.pages) };
}

#[tactic(auto, using(crate::proofs::Whole::whole_of_page), unfolding(definitions::specs::Bytes::zero_page, definitions::specs::Bytes::with_bytes, definitions::specs::Bytes::number_at, definitions::specs::Bytes::with_number))]
impl Frames {
    ghost use Rattle.frame_arena.specs.Lends.{LendsPage};

    /// Allocates `n` page frames of zeros.
    pub fn create(alloc: Global, n: u32) -> Result<Frames, NoMemory>
        ensures { IfOk result (λ frames. frames ≡ replicate n zero_page) }
    {
        let Some(room) = n.checked_add(SHARED) else {
            return Err(NoMemory);
        };
        let Ok(places) = Vec::from_elem(alloc, ZEROS, n as usize) else {
            return Err(NoMemory);
        };
        let Ok(mut pages) = Vec::with_capacity(alloc, room as usize) else {
            return Err(NoMemory);
        };
        pages.push_reserved(Page::zero());
        pages.push_reserved(Page::filled(FILLER));
        Ok(Frames { places, pages })
    }

    /// Returns the number of page frames.
    pub fn len(&self) -> u32
        ensures len { result ≡ length self.now }
        ensures pages { All IsPage self.now }
    {
        self.places.len() as u32
    }

    /// Tells the prover that each page frame has 4096 bytes and that fewer than 2^32 exist, which it knows only of page
    /// frames that are read.
    pub fn are_pages(&self)
        ensures pages { All IsPage self.now }
        ensures few { length self.now < 2 ^ 32 }
    {
        let _len = self.len();
    }

    /// Returns the content of page frame `p`.
    pub fn page(&self, p: u32) -> &Page
        requires { p < length self.now }
        ensures content { result.now ≡ frame self.now p }
        ensures page { IsPage result.now }
    {
        let place = self.places[p as usize];
        let page = &self.pages[place as usize];
        page.is_page();
        page
    }

    /// Returns page frame `p` for writing.
    pub fn page_mut(&mut self, p: u32) -> &mut Page
        requires { p < length self.old }
        ensures* writes_back { sem 𝓛 (LendsPage self.entry p result) }
        ensures value { result.now ≡ frame self.old p }
    {
        let place = own_place(&mut self.places, &mut self.pages, p);
        let page = &mut self.pages[place as usize];
        page.is_page();
        page
    }

    /// Copies a page into page frame `p`.
    pub fn write(&mut self, p: u32, page: &Page)
        requires { p < length self.old }
        ensures { self.new ≡ with_frame self.old p page.now }
    {
        self.write_bytes(p, page.as_bytes());
    }

    /// Copies the bytes of a page into page frame `p`.
    pub fn write_bytes(&mut self, p: u32, bytes: &[u8; 4096])
        requires { p < length self.old }
        ensures { self.new ≡ with_frame self.old p bytes.now }
    {
        self.page_mut(p).copy_from_slice(bytes);
    }

    /// Copies page frame `from` into page frame `to`.
    pub fn copy(&mut self, from: u32, to: u32)
        requires from_in_range { from < length self.old }
        requires to_in_range { to < length self.old }
        ensures { self.new ≡ with_frame self.old to (frame self.old from) }
    {
        let source = self.places[from as usize];
        if source < SHARED {
            self.share(to, source);
            return;
        }
        let target = self.places[to as usize];
        if target < SHARED {
            self.places[to as usize] = self.pages.len() as u32;
            push_copy(&mut self.pages, source);
            return;
        }
        // Nothing lies between these two statements, so that the page is copied only once.
        let page = Page::from_bytes(self.pages[source as usize].as_bytes());
        self.pages[target as usize] = page;
    }

    /// Returns whether each byte of page frame `p` is zero. If it shares the page of zeros, this is known without
    /// looking at the page.
    pub fn is_zero(&self, p: u32) -> bool
        requires { p < length self.now }
        ensures { result ≡ pointwise nat_eq (frame self.now p) zero_page }
    {
        let place = self.places[p as usize];
        if place == ZEROS {
            return true;
        }
        self.pages[place as usize].as_bytes() == self.pages[ZEROS as usize].as_bytes()
    }

    /// Copies the `n` page frames from `from` on into those from `to` on. The two runs may overlap.
    pub fn copy_run(&mut self, from: u32, to: u32, n: u32)
        requires from_in_range { from + n ≤ length self.old }
        requires to_in_range { to + n ≤ length self.old }
        ensures copied { self.new ≡ with_run self.old to (run_at n self.old from) }
        ensures len { length self.new ≡ length self.old }
    {
        self.are_pages();
        // Starts at the end at which no source is written before it is read.
        if to < from {
            copy_forward(self, from, to, n);
        } else {
            copy_backward(self, from, to, n);
        }
    }

    /// Returns the 8-byte number at offset 8i of page frame `p`.
    pub fn word(&self, p: u32, i: usize) -> u64
        requires frame_in_range { p < length self.now }
        requires word_in_range { i < WORDS_PER_PAGE }
        ensures { result ≡ word (frame self.now p) i }
    {
        self.page(p).word(i)
    }

    /// Sets the 8-byte number at offset 8i of page frame `p`, and leaves the rest.
    pub fn set_word(&mut self, p: u32, i: usize, v: u64)
        requires frame_in_range { p < length self.old }
        requires word_in_range { i < WORDS_PER_PAGE }
        ensures { self.new ≡ with_frame self.old p (with_word (frame self.old p) i v) }
    {
        self.page_mut(p).set_word(i, v);
    }

    /// Returns the 4-byte number at offset k of page frame `p`.
    pub fn u32_at(&self, p: u32, k: usize) -> u32
        requires frame_in_range { p < length self.now }
        requires number_in_range { k ≤ 4092 }
        ensures { result ≡ number_at 4 (frame self.now p) k }
    {
        self.page(p).u32_at(k)
    }

    /// Sets the 4-byte number at offset k of page frame `p`, and leaves the rest.
    pub fn put_u32(&mut self, p: u32, k: usize, v: u32)
        requires frame_in_range { p < length self.old }
        requires number_in_range { k ≤ 4092 }
        ensures { self.new ≡ with_frame self.old p (with_number 4 (frame self.old p) k v) }
    {
        self.page_mut(p).put_u32(k, v);
    }

    /// Sets each byte of page frame `p` to zero.
    pub fn zero(&mut self, p: u32)
        requires { p < length self.old }
        ensures { self.new ≡ with_frame self.old p zero_page }
    {
        self.share(p, ZEROS);
    }

    /// Sets each byte of every page frame to zero. New page frames are zeros already.
    pub fn zero_all(&mut self)
        ensures { self.new ≡ replicate (length self.old) zero_page }
    {
        self.places.fill(ZEROS);
        self.pages.truncate(SHARED as usize);
    }

    /// Sets each byte of page frame `p` to `byte`.
    pub fn fill(&mut self, p: u32, byte: u8)
        requires { p < length self.old }
        ensures { self.new ≡ with_frame self.old p (filled_page byte) }
    {
        if byte == FILLER {
            self.share(p, FILLED);
        } else {
            *self.page_mut(p) = Page::filled(byte);
        }
    }

    // Gives page frame `p` the content of the shared page in place `shared`.
    fn share(&mut self, p: u32, shared: u32)
        requires in_range { p < length self.old }
        requires shared { shared < 2 }
        ensures { self.new ≡ with_frame self.old p (shared_page shared) }
    {
        let place = self.places[p as usize];
        if place < SHARED {
            self.places[p as usize] = shared;
            return;
        }
        // Each arm fills the page where it lies.
        if shared == ZEROS {
            self.pages[place as usize] = Page::zero();
        } else {
            self.pages[place as usize] = Page::filled(FILLER);
        }
    }
}

// Returns the place of page frame `p`'s own page. If it has none, adds a copy of the one that it shares.
fn own_place(places: &mut Vec<u32>, pages: &mut Vec<Page>, p: u32) -> u32
    requires kept { AreKept places.old.items pages.old.items (vec_capacity pages.old) }
    requires in_range { p < length places.old.items }
    ensures kept { AreKept places.new.items pages.new.items (vec_capacity pages.new) }
    ensures contents { contents places.new.items pages.new.items ≡ contents places.old.items pages.old.items }
    ensures place { slice_index places.new.items p ≡ result }
    ensures own { 2 ≤ result }
{
    let place = places[p as usize];
    if place >= SHARED {
        return place;
    }
    let added = pages.len() as u32;
    places[p as usize] = added;
    push_shared(pages, place);
    added
}

// Adds the page that page frames share in a place, if there is room. It is a function of its own so that its callers have
// no page on their stacks.
#[cold]
#[inline(never)]
#[tactic(auto, unfolding(crate::specs::Places::shared_page))]
fn push_shared(pages: &mut Vec<Page>, place: u32)
    requires shared { place < 2 }
    requires room { vec_len pages.old < vec_capacity pages.old }
    ensures pages { pages.new.items ≡ pages.old.items ++ shared_page place ∷ [] }
    ensures capacity { vec_capacity pages.new ≡ vec_capacity pages.old }
{
    if place == ZEROS {
        pages.push_reserved(Page::zero());
    } else {
        pages.push_reserved(Page::filled(FILLER));
    }
}

// Adds a copy of the page in a place, if there is room. It is a function of its own so that its callers have no page on
// their stacks.
#[inline(never)]
fn push_copy(pages: &mut Vec<Page>, place: u32)
    requires in_range { place < length pages.old.items }
    requires room { vec_len pages.old < vec_capacity pages.old }
    ensures pages { pages.new.items ≡ pages.old.items ++ frame pages.old.items place ∷ [] }
    ensures capacity { vec_capacity pages.new ≡ vec_capacity pages.old }
{
    let page = Page::from_bytes(pages[place as usize].as_bytes());
    pages.push_reserved(page);
}

// Copies a run from its first page frame to its last.
fn copy_forward(frames: &mut Frames, from: u32, to: u32, n: u32)
    requires from_in_range { from + n ≤ length frames.old }
    requires downwards { to < from }
    requires few { length frames.old < 2 ^ 32 }
    ensures copied { frames.new ≡ with_run frames.old to (run_at n frames.old from) }
    ensures len { length frames.new ≡ length frames.old }
{
    for i in 0..n {
        frames.copy(from + i, to + i);
    }
}

// Copies a run from its last page frame to its first.
fn copy_backward(frames: &mut Frames, from: u32, to: u32, n: u32)
    requires to_in_range { to + n ≤ length frames.old }
    requires upwards { from ≤ to }
    requires few { length frames.old < 2 ^ 32 }
    ensures copied { frames.new ≡ with_run frames.old to (run_at n frames.old from) }
    ensures len { length frames.new ≡ length frames.old }
{
    for i in (0..n).rev() {
        frames.copy(from + i, to + i);
    }
}
