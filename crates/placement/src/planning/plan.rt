ghost use Rattle.std.specs.Prelude.{◌≡◌, ◌+◌, ◌<◌, ◌≤◌, Some, length, take, drop, slice_get, vec_capacity};
ghost use Rattle.std.specs.List.{zip};
ghost use Rattle.definitions.specs.Zones.{first_from};
ghost use Rattle.frame_sets.specs.FrameSet.{IsFrameSet};
ghost use Rattle.placement.specs.Plan.{without};
ghost use Rattle.placement.specs.Walk.{HasPassed, unreserved};

use frame_sets::Bitmap;

/// Makes `list` the `count` lowest free page frames that aren't originals, and returns the next one.
pub(crate) fn reserve(list: &mut Vec<u32>, origs: &Bitmap, free: &Bitmap, count: u32) -> u32
    requires set { IsFrameSet free.now }
    requires enough { count < length (without free.now.members origs.now.members) }
    requires room { count ≤ vec_capacity list.old }
    ensures list { list.new.items ≡ take count (without free.now.members origs.now.members) }
    ensures bounce { slice_get (without free.now.members origs.now.members) count ≡ Some result }
    ensures room { vec_capacity list.old ≤ vec_capacity list.new }
{
    list.clear();
    let mut from = 0;
    for _ in 0..count {
        let frame = next_apart(origs, free, from).unwrap();
        list.push(frame).unwrap();
        from = frame + 1;
    }
    next_apart(origs, free, from).unwrap()
}

/// Makes `moves` the moves to the originals from the free page frames that aren't reserved, without the `skip` lowest.
pub(crate) fn pair(
    moves: &mut Vec<(u32, u32)>,
    origs: &Bitmap,
    free: &Bitmap,
    bounce: u32,
    skip: u32,
)
    requires origs { IsFrameSet origs.now }
    requires free { IsFrameSet free.now }
    requires each { skip + length origs.now.members ≡ length (unreserved origs.now.members free.now.members bounce) }
    requires room { length origs.now.members ≤ vec_capacity moves.old }
    ensures moves { moves.new.items ≡ zip (drop skip (unreserved origs.now.members free.now.members bounce))
        origs.now.members }
    ensures room { vec_capacity moves.old ≤ vec_capacity moves.new }
{
    moves.clear();
    let mut from = pass(origs, free, bounce, skip);
    for original in origs.iter() {
        let frame = next_unreserved(origs, free, bounce, from).unwrap();
        moves.push((frame, original)).unwrap();
        from = frame + 1;
    }
}

/// Returns a number above exactly the `skip` lowest of the free page frames that aren't reserved.
fn pass(origs: &Bitmap, free: &Bitmap, bounce: u32, skip: u32) -> u32
    requires free { IsFrameSet free.now }
    requires enough { skip ≤ length (unreserved origs.now.members free.now.members bounce) }
    ensures { HasPassed (unreserved origs.now.members free.now.members bounce) result skip }
{
    let mut from = 0;
    for _ in 0..skip {
        let frame = next_unreserved(origs, free, bounce, from).unwrap();
        from = frame + 1;
    }
    from
}

/// Returns the least free page frame from `from` on that isn't an original.
fn next_apart(origs: &Bitmap, free: &Bitmap, from: u32) -> Option<u32>
    requires { IsFrameSet free.now }
    ensures { result ≡ first_from (without free.now.members origs.now.members) from }
{
    for p in free.iter_from(from) {
        if !origs.has(p) {
            return Some(p);
        }
    }
    None
}

/// Returns the least free page frame from `from` on that isn't reserved.
fn next_unreserved(origs: &Bitmap, free: &Bitmap, bounce: u32, from: u32) -> Option<u32>
    requires { IsFrameSet free.now }
    ensures { result ≡ first_from (unreserved origs.now.members free.now.members bounce) from }
{
    for p in free.iter_from(from) {
        if p > bounce {
            return Some(p);
        }
        if origs.has(p) {
            return Some(p);
        }
    }
    None
}
