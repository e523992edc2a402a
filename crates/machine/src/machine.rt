use crate::{Flight, Hardware};
use image_format::Area;
use plain_machine::{Held, NoSwap};

/// A machine without its page frames: its hardware, its swap area or why that can't be used, how many blocks its disk
/// has, whether an image is on the disk, and its tasks' unfinished operations.
#[derive(Clone, Copy)]
pub struct Machine {
    pub hw: Hardware,
    pub area: Result<Area, NoSwap>,
    pub blocks: u32,
    pub held: Held,
    /// The unfinished operations; that of task t, from 1 on, is at index t - 1.
    pub flights: [Flight; 64],
}

impl Machine {
    ghost use Rattle.std.specs.Prelude.{◌≡◌, ◌<◌, ◌^◌, Err, replicate};
    ghost use Rattle.plain_machine.specs.declared.held.Held.TheVariants.{No};

    /// Makes a machine that never ran.
    pub fn of(hw: Hardware) -> Machine
        ensures hw { result.hw ≡ hw }
        ensures held { result.held ≡ No }
        ensures blocks { result.blocks ≡ 0 }
        ensures flights { result.flights ≡ replicate 64 Flight.Nothing }
    {
        Machine {
            hw,
            area: Err(NoSwap::Old),
            blocks: 0,
            held: Held::No,
            flights: [Flight::Nothing; 64],
        }
    }
    /// Tells the prover that the disk's blocks have 32-bit numbers, by reading their count.
    pub fn blocks_fit(&self)
        ensures { self.now.blocks < 2 ^ 32 }
    {
        let _blocks = self.blocks;
    }
}
