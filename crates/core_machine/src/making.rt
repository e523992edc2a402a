ghost use Rattle.std.specs.Prelude.{◌≡◌, ◌≤◌, ℕ, List, Some, IfErr, IfOk};
ghost use Rattle.definitions.specs.Disk.{HasRisen};
ghost use Rattle.plain_machine.specs.Machine.{Fits};
ghost use Rattle.core_machine.specs.Made.{IsOfCore, LacksMachine};
ghost use Rattle.core_machine.specs.declared.stop.Stop.TheVariants as stop;

use crate::heading::{frames_in, heading_of, plain_layout};
use crate::laying::lay_all;
use crate::segments::open;
use crate::stop::Stop;
use byte_streams::Source;
use image_machine::FilledPlan;
use machine::Dump;
use std::alloc::Global;

/// Reads a core file up to the last byte of its segments, and makes a machine with its memory: a page frame of zeros is
/// free, and every other one is in use and has its page. The machine has one zone from page frame 0 on, and an area of
/// `slots` slots, or else of as many as page frames, but at least two. What follows those bytes isn't read.
pub fn machine_of_core<S: Source>(
    alloc: Global,
    source: &mut S,
    slots: Option<u32>,
) -> Result<Dump, Stop>
    ensures dump { IfOk result (λ dump. (bytes : List ℕ) → S.remaining source.old ≡ Some bytes →
        IsOfCore bytes slots dump) }
    ensures lacks { IfErr result (λ why. (bytes : List ℕ) → S.remaining source.old ≡ Some bytes →
        LacksMachine bytes slots why) }
    ensures fits { IfOk result (λ dump. Fits dump.hw dump.frames) }
    ensures counted { S.faults source.old ≤ S.faults source.new }
    ensures cause { IfErr result (λ why. why ≡ stop.Source → HasRisen (S.faults source.old) (S.faults source.new)) }
{
    let core = open(alloc, source)?;
    let heading = heading_of(core.ident, frames_in(&core.segments), slots);
    let layout = plain_layout();
    let mut filled = FilledPlan::of(alloc, &heading, layout)?;
    lay_all(source, core.place, &core.segments, &mut filled)?;
    Ok(filled.machine(None)?)
}
