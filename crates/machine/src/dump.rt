use crate::hardware::Hardware;
use frame_arena::Frames;

/// A machine whose memory was written down: its hardware, and the content of its page frames.
#[derive(Drop)]
pub struct Dump {
    pub hw: Hardware,
    pub frames: Frames,
}
