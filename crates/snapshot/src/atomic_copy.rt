//! The atomic copy of the page frames that an image saves.

ghost use Rattle.std.specs.Prelude.{◌≡◌, ◌<◌, All, length};
ghost use Rattle.snapshot.specs.Copies.{AreCopied, AreDisjoint};

use frame_arena::Frames;
use frame_sets::Bitmap;

/// Copies the originals into the copy frames: the k-th of one set into the k-th of the other
/// (copy_data_pages, kernel/power/snapshot.c).
pub fn copy_all(frames: &mut Frames, origs: &Bitmap, copies: &Bitmap)
    requires equal { length origs.now.members ≡ length copies.now.members }
    requires disjoint { AreDisjoint origs.now.members copies.now.members }
    requires origs_within { All (λ p. p < length frames.old) origs.now.members }
    requires copies_within { All (λ p. p < length frames.old) copies.now.members }
    ensures { AreCopied origs.now.members copies.now.members frames.old frames.new }
{
    for (original, copy) in origs.iter().zip(copies.iter()) {
        frames.copy(original, copy);
    }
}
