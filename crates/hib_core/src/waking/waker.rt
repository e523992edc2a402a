ghost use Rattle.std.specs.Prelude.{◌≡◌, ◌<◌};
ghost use Rattle.plain_machine.specs.Machine.{IsHardware, block_of_slot};
ghost use Rattle.protocol_laws.specs.Rows.{TellsNewFault};
ghost use Rattle.hib_core.specs.Waking.{phase_of};
ghost use Rattle.hib_core.specs.WakingRow.{HasStepped, IsBegun};
ghost use Rattle.hib_core.specs.declared.waking.phase.Phase.TheVariants as phase;
ghost use Rattle.sector_disk.specs.Called.{Called, OneCall};

use crate::waking::phase::Phase;
use machine::Machine;
use plain_machine::{Left, Reply};
use sector_disk::Disk;
use unmark::{Unmark, UnmarkStep};

/// The number of steps of a waking: a read, a write and a sync.
const STEPS: u32 = 3;

/// The step to make next, with the data that it needs.
#[derive(Drop)]
pub(crate) enum Stage {
    /// A call that takes the mark of the image back.
    Wakes(Unmark),
    /// No step: the machine runs.
    Woken,
    /// No step: the machine sleeps again.
    Asleep,
}

/// A waking. It changes neither the machine nor its page frames: its caller does so, as the replies say.
#[derive(Drop)]
pub struct Waker {
    pub(crate) stage: Stage,
}

impl Waker {
    /// Begins to wake a machine that sleeps.
    pub fn begin() -> Waker
        ensures row { IsBegun result }
        ensures begun { phase_of result ≡ phase.UnderWay }
    {
        Waker {
            stage: Stage::Wakes(Unmark::begin()),
        }
    }

    /// Returns whether a step is left to make, or else whether the machine runs or sleeps again.
    pub fn phase(&self) -> Phase
        ensures { result ≡ phase_of self.now }
    {
        match self.stage {
            Stage::Wakes(_) => Phase::UnderWay,
            Stage::Woken => Phase::Runs,
            Stage::Asleep => Phase::Asleep,
        }
    }

    /// Makes the next step, with one call of the disk. If the read fails, the machine sleeps as before; after another
    /// call that fails, the image perhaps still exists. After `Woken` the caller has to record that the machine holds
    /// nothing, and to give the image's slots back; after any other reply the machine is as it was.
    pub fn step<D: Disk>(&mut self, machine: &Machine, disk: &mut D) -> Reply
        requires under_way { phase_of self.old ≡ phase.UnderWay }
        requires blocks { D.block_count disk.old ≡ machine.now.blocks }
        requires hardware { IsHardware machine.now.hw }
        requires header { block_of_slot machine.now.hw 0 < machine.now.blocks }
        ensures stepped { HasStepped machine.now self.old self.new result (D.content disk.old) (D.content disk.new) }
        ensures called { Called D.Disk OneCall (TellsNewFault result) disk.old disk.new }
    {
        machine.blocks_fit();
        let Stage::Wakes(unmark) = &mut self.stage else {
            unreachable!()
        };
        let block = machine.hw.extents().block(0);
        match unmark.step(block as u32, disk) {
            UnmarkStep::Read => Reply::More { k: 1, of: STEPS },
            UnmarkStep::Written => Reply::More { k: 2, of: STEPS },
            UnmarkStep::Synced => {
                self.stage = Stage::Woken;
                Reply::Woken
            }
            UnmarkStep::ReadFault => {
                self.stage = Stage::Asleep;
                Reply::ReadFault { left: Left::Same }
            }
            UnmarkStep::WriteFault => {
                self.stage = Stage::Asleep;
                Reply::WriteFault { left: Left::Unsure }
            }
            UnmarkStep::SyncFault => {
                self.stage = Stage::Asleep;
                Reply::SyncFault { left: Left::Unsure }
            }
        }
    }
}
