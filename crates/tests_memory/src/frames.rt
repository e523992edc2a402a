//! Page frames, and sets of them.
ghost use Rattle.std.specs.Prelude.{◌≡◌};

use frame_arena::Frames;
use frame_sets::{Bitmap, Zones};
use page_core::Page;
use std::test::Fail;

/// Returns the last words of page frames 1 to 3.
fn last_words(frames: &Frames) -> [u64; 3] {
    if frames.len() < 4 {
        return [0; 3];
    }
    [
        frames.word(1, 511),
        frames.word(2, 511),
        frames.word(3, 511),
    ]
}

#[test]
fn runs_that_overlap(rt: HostRuntime) -> Result<(), Fail> {
    let mut frames = Frames::create(rt.alloc(), 4)?;
    frames.set_word(1, 511, 11);
    frames.set_word(2, 511, 12);
    frames.copy_run(1, 2, 2);
    let up = last_words(&frames);
    frames.copy_run(2, 1, 2);
    assert_eq!(rt; (up, last_words(&frames)), ([11, 11, 12], [11, 12, 12]));
    Ok(())
}

#[test]
fn one_frame_at_a_time(rt: HostRuntime) -> Result<(), Fail> {
    let mut frames = Frames::create(rt.alloc(), 3)?;
    let mut page = Page::zero();
    page.set_word(0, 0x0102_0304_0506_0708);
    frames.write(0, &page);
    frames.fill(1, 165);
    frames.copy(0, 2);
    frames.put_u32(2, 4, 9);
    frames.zero(0);
    let last = frames.page(1).as_bytes()[4095];
    assert_eq!(rt;
        (last, frames.word(0, 0), frames.word(2, 0)),
        (165, 0, 0x0000_0009_0506_0708)
    );
    Ok(())
}

/// Adds a valid page frame to the set.
fn put(set: &mut Bitmap, zones: &Zones, p: u32)
    requires { set.old.zones ≡ zones.now }
    ensures { set.new.zones ≡ zones.now }
{
    if zones.valid(p) {
        set.set(p);
    }
}

// Each block of a set has the bits of 32,768 page frames (BM_BITS_PER_BLOCK, kernel/power/snapshot.c).
#[test]
fn bits_in_blocks(rt: HostRuntime) -> Result<(), Fail> {
    let zones = Zones::of(&[(5, 40000)])?;
    let mut set = Bitmap::create(rt.alloc(), &zones)?;
    put(&mut set, &zones, 32772);
    put(&mut set, &zones, 32773);
    assert_eq!(rt; (set.blocks(), set.first_from(33)), (2, Some(32772)));
    assert_eq!(rt; (set.words(0)[511], set.words(1)[0]), (1 << 63, 1));
    Ok(())
}
