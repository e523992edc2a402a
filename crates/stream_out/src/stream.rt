ghost use Rattle.std.specs.Prelude.{◌≡◌, ◌≤◌, ◌<◌, ◌++◌, [], ◌↔◌, min, take, drop, length, IsOk, IfOk, IfErr, List, ℕ};
ghost use Rattle.definitions.specs.Zones.{top};
ghost use Rattle.stream_out.specs.Bytes.{bytes_of, plain_image};
ghost use Rattle.stream_out.specs.Pages.{IsSaveableSet};
ghost use Rattle.stream_out.specs.Bytes.{HasNoTaskSlot, IsFirstTaskSlot};
ghost use Rattle.stream_out.specs.Kept.{left_of, IsKept};

use crate::SlotsInUse;
use crate::cursor::Cursor;
use crate::pages::{hand_out_data, hand_out_head, head_pages};
use crate::slots::first_task_slot;
use frame_arena::Frames;
use frame_sets::Bitmap;
use machine::Hardware;
use page_core::Page;
use std::marker::Model;

/// An image of a machine's memory that is being handed out as bytes. A contract sees the bytes that are left.
#[derive(Drop)]
pub struct StreamOut<'a> {
    frames: &'a Frames,
    hw: &'a Hardware,
    saveable: &'a Bitmap,
    cursor: Cursor,
    /// The info page or the number page that is being handed out.
    head: Page,
}

impl<'a> Model for StreamOut<'a> {
    ghost Value = { List ℕ };

    ghost view = { left_of };

    ghost invariant = { IsKept };
}

impl<'a> StreamOut<'a> {
    /// Begins the stream of the image of this memory in the plain format. `saveable` must be the set of its saveable
    /// page frames. Refuses if a task has a slot.
    pub fn begin(
        frames: &'a Frames,
        hw: &'a Hardware,
        saveable: &'a Bitmap,
    ) -> Result<StreamOut<'a>, SlotsInUse>
        requires frames { length frames.now ≡ top hw.now.zones }
        requires saveable { IsSaveableSet hw.now frames.now saveable.now }
        ensures ok { IsOk result ↔ HasNoTaskSlot hw.now frames.now }
        ensures stream { IfOk result (λ stream. stream ≡ bytes_of (plain_image hw.now frames.now)) }
        ensures refused { IfErr result (λ refusal. IsFirstTaskSlot hw.now frames.now refusal.slot) }
    {
        if let Some(slot) = first_task_slot(frames, hw) {
            return Err(SlotsInUse { slot });
        }
        Ok(StreamOut {
            frames,
            hw,
            saveable,
            cursor: Cursor::begin(),
            head: Page::zero(),
        })
    }

    /// Hands out the next bytes, as many as fit and are left, and returns how many.
    pub fn next(&mut self, into: &mut [u8]) -> usize
        ensures count { result ≡ min (length into.old) (length self.old) }
        ensures bytes { into.new ≡ take result self.old ++ drop result into.old }
        ensures left { self.new ≡ drop result self.old }
    {
        let mut filled = 0;
        while filled < into.len() {
            let count = self.next_of_page(&mut into[filled..]);
            if count == 0 {
                break;
            }
            filled += count;
        }
        filled
    }

    /// Hands out the next bytes of one page, and returns how many: 0 if none is left.
    fn next_of_page(&mut self, into: &mut [u8]) -> usize
        requires { 0 < length into.old }
        ensures fit { result ≤ length into.old }
        ensures were_left { result ≤ length self.old }
        ensures over { result ≡ 0 → self.old ≡ [] }
        ensures bytes { into.new ≡ take result self.old ++ drop result into.old }
        ensures left { self.new ≡ drop result self.old }
    {
        let n = self.saveable.len();
        let heads = head_pages(n);
        if self.cursor.page == heads + n {
            return 0;
        }
        if self.cursor.page < heads {
            hand_out_head(
                self.hw,
                self.saveable,
                &mut self.head,
                &mut self.cursor,
                into,
            )
        } else {
            hand_out_data(self.frames, self.saveable, &mut self.cursor, into)
        }
    }
}
