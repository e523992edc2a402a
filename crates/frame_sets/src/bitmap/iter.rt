ghost use Rattle.std.specs.Prelude.{◌≡◌, List};
ghost use Rattle.std.specs.Iterator.{YieldsFirst, item_count};
ghost use Rattle.frame_sets.specs.FrameSet.{IsFrameSet};
ghost use Rattle.frame_sets.specs.Left.{left_in, members_from};

use crate::bitmap::Bitmap;

/// The members of a set, in ascending order.
#[derive(Drop)]
pub struct Iter<'a> {
    set: &'a Bitmap,
    /// No member below this one is left.
    from: u32,
}

impl<'a> Iterator for Iter<'a> {
    type Item = u32;

    ghost next_gives = { YieldsFirst left_in };

    ghost remaining = { item_count left_in };

    fn next(&mut self) -> Option<u32> {
        self.set.is_frame_set();
        let p = self.set.first_from(self.from)?;
        self.from = p + 1;
        Some(p)
    }
}

impl Bitmap {
    /// Returns the members in ascending order.
    pub fn iter(&self) -> Iter<'_>
        ensures members { left_in result ≡ self.now.members }
        ensures set { IsFrameSet self.now }
    {
        self.iter_from(0)
    }

    /// Returns the members from page frame `p` on, in ascending order.
    pub fn iter_from(&self, p: u32) -> Iter<'_>
        ensures members { left_in result ≡ members_from p self.now.members }
        ensures set { IsFrameSet self.now }
    {
        self.is_frame_set();
        Iter { set: self, from: p }
    }
}
