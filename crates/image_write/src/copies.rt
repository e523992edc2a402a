ghost use Rattle.std.specs.Prelude.{◌≡◌, ◌==◌, ℕ, ◌+◌, ◌<◌, List, length, slice_index_or, Contains, option_copied};
ghost use Rattle.std.specs.List.{list_any};
ghost use Rattle.image_write.specs.Copies.{with_data};
ghost use Rattle.image_write.specs.Kept.{HasPassed};
ghost use Rattle.frame_sets.specs.Places.{members_in};

use frame_sets::Bitmap;

/// How far the originals and their copies have been read.
#[derive(Clone, Copy)]
pub struct Cursor {
    /// A lower bound of the next original's number.
    pub orig: u32,
    /// A lower bound of its copy frame's number.
    pub copy: u32,
    /// The number of originals below `orig`.
    pub passed: u32,
}

impl Cursor {
    /// Makes a cursor before the first original.
    pub fn begin() -> Cursor
        ensures { (origs copies zeros : List ℕ) → HasPassed origs copies zeros result 0 }
    {
        Cursor {
            orig: 0,
            copy: 0,
            passed: 0,
        }
    }

    /// Returns the copy frame of the next original that isn't in `zeros`, and moves past that original.
    pub fn next(&mut self, origs: &Bitmap, copies: &Bitmap, zeros: Option<&Bitmap>) -> u32
        requires equal { length origs.now.members ≡ length copies.now.members }
        requires more { (found : ℕ)
            × (found < length (with_data origs.now.members copies.now.members (members_in (option_copied zeros))))
            × HasPassed origs.now.members copies.now.members (members_in (option_copied zeros)) self.old found }
        ensures copy { (found : ℕ) →
            HasPassed origs.now.members copies.now.members (members_in (option_copied zeros.entry)) self.old found
            → result ≡ (slice_index_or (with_data origs.now.members copies.now.members
            (members_in (option_copied zeros.entry))) found (0, 0)).1 }
        ensures member { Contains copies.now.members result }
        ensures passed { (found : ℕ) →
            HasPassed origs.now.members copies.now.members (members_in (option_copied zeros.entry)) self.old found
            → HasPassed origs.now.members copies.now.members (members_in (option_copied zeros.entry)) self.new
            (found + 1) }
    {
        let count = origs.len();
        let equal = copies.len() == count;
        prove!(equal);
        'pairs: loop {
            let orig = origs.first_from(self.orig).unwrap();
            let copy = copies.first_from(self.copy).unwrap();
            self.orig = orig + 1;
            self.copy = copy + 1;
            self.passed += 1;
            if !is_in(zeros, orig) {
                return copy;
            }
        }
    }
}

/// Returns whether there is a set and a page frame is in it.
fn is_in(set: Option<&Bitmap>, p: u32) -> bool
    ensures { result ≡ list_any (λ q. q == p) (members_in (option_copied set.entry)) }
{
    match set {
        Some(set) => set.has(p),
        None => false,
    }
}
