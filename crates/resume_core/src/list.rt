ghost use Rattle.std.specs.Prelude.{◌≡◌, ◌≤◌, ◌<◌, ◌+◌, ◌^◌, false, true, length, Some, None, IsSome, IfErr, OnOk};
ghost use Rattle.std.specs.Option.{option_copied};
ghost use Rattle.image_read.specs.Answers.{Compares};
ghost use Rattle.placement.specs.Waiting.{with_data};
ghost use Rattle.plain_machine.specs.Shows.{rests};
ghost use Rattle.protocol_laws.specs.Rows.{TellsNewFault, is_idle};
ghost use Rattle.sector_disk.specs.Called.{Called, AtMostOneCall};

use crate::Load;
use crate::load::{OpenChain, Stage};
use frame_arena::Frames;
use image_read::{Cause, Expected, ReadStep};
use machine::Machine;
use plain_machine::{IdentCheck, Left, Reply};
use sector_disk::Disk;
use std::mem::replace;
use swap_slots::FreeRuns;

// The reads up to the last number page (load_header and unpack_orig_pfns, kernel/power/snapshot.c).
impl Load {
    ghost use Rattle.resume_core.specs.declared.load.Stage.TheVariants as stage;
    ghost use Rattle.resume_core.specs.Loading.{activity_told};
    ghost use Rattle.resume_core.specs.Ready.{CanStep, lists_at};
    ghost use Rattle.resume_core.specs.declared.load.OpenChain.{OpenChain};
    ghost use Rattle.image_read.specs.Reading.{places_left};
    ghost use Rattle.resume_core.specs.StepsLeft.{loading_steps_left};
    ghost use Rattle.resume_core.specs.Row.{ListsOn};
    ghost use Rattle.resume_core.specs.Stepped.{HasStepped, HasProceeded};
    ghost use Rattle.resume_core.specs.Refusals.{room_refusal, refusal_behind};

    /// Reads the next map, the info page or the next number page.
    pub(crate) fn list_next<D: Disk>(
        &mut self,
        machine: &mut Machine,
        frames: &mut Frames,
        runs: &mut FreeRuns,
        disk: &mut D,
    ) -> Reply
        requires ready { CanStep machine.old frames.old runs.old self.old }
        requires blocks { D.block_count disk.old ≡ machine.old.blocks }
        requires stage { lists_at self.old.stage }
        ensures stepped { HasStepped machine.old frames.old self.old machine.new frames.new runs.new self.new result
            (D.content disk.old) (D.content disk.new) }
        ensures called { Called D.Disk AtMostOneCall (TellsNewFault result) disk.old disk.new }
    {
        let expected = expected_of(machine, self.check);
        match &mut self.stage {
            Stage::List(chain) => match chain.reader.step(
                disk,
                &expected,
                &mut self.origs,
                &mut self.zeros,
                &mut self.page,
            ) {
                ReadStep::Fault => self.stop(Reply::ReadFault { left: Left::Gone }),
                ReadStep::Refused(cause) => {
                    let listed = chain.reader.listed();
                    self.refuse_listing(listed, cause)
                }
                ReadStep::More { .. } | ReadStep::Page { .. } => match chain.reader.listed() {
                    None => chain.go_on(),
                    Some(_) => self.begin_reads(machine, frames, runs),
                },
                // By then every number page has been read.
                ReadStep::Done => self.begin_reads(machine, frames, runs),
            },
            _ => unreachable!(),
        }
    }

    /// Ends the resume at a block at fault. If all numbers are listed by then, too little room for the pages comes
    /// first.
    fn refuse_listing(&mut self, listed: Option<u32>, cause: Cause) -> Reply
        requires zones { self.old.origs.zones ≡ self.old.waiting.zones }
        ensures reply { result ≡ refusal_behind listed (length self.old.waiting.free)
            (length (with_data self.old.origs.members self.old.zeros.members)) cause }
        ensures load { self.new ≡ record self.old { stage = stage.Rest; waiting = self.new.waiting } }
        ensures same_zones { self.new.waiting.zones ≡ self.old.waiting.zones }
        ensures no_fault { TellsNewFault result → ⊥ }
        ensures rests { activity_told self.old.loader result ≡ rests }
        ensures works { is_idle result ≡ false }
    {
        if listed.is_none() {
            return self.stop(Reply::from(cause));
        }
        match self.plan() {
            Ok(()) => self.stop(Reply::from(cause)),
            Err(why) => self.stop(why),
        }
    }

    /// Begins to read the saved pages, once a place is planned for each. Stops if there is too little room.
    fn begin_reads(
        &mut self,
        machine: &mut Machine,
        frames: &mut Frames,
        runs: &mut FreeRuns,
    ) -> Reply
        requires ready { CanStep machine.old frames.old runs.old self.old }
        requires stage { lists_at self.old.stage }
        ensures row { (chain : OpenChain) → self.old.stage ≡ stage.List chain → IsSome chain.reader.listed →
            ListsOn machine.old frames.old self.old chain machine.new frames.new self.new result }
        ensures proceeded { HasProceeded machine.old self.old machine.new frames.new runs.new self.new result }
        ensures left { (chain : OpenChain) → self.old.stage ≡ stage.List chain →
            loading_steps_left self.new ≤ places_left chain.reader + 1 }
    {
        match self.plan() {
            Ok(()) => {}
            Err(why) => return self.stop(why),
        }
        match replace(&mut self.stage, Stage::Rest) {
            Stage::List(chain) => {
                self.stage = Stage::Read(chain);
                self.read_on(machine, frames, runs)
            }
            _ => unreachable!(),
        }
    }

    /// Plans the page frames in which the pages to come wait, or refuses if too few are free.
    fn plan(&mut self) -> Result<(), Reply>
        requires { self.old.origs.zones ≡ self.old.waiting.zones }
        ensures refused { IfErr result (λ why. room_refusal (length self.old.waiting.free)
            (length (with_data self.old.origs.members self.old.zeros.members)) ≡ Some why) }
        ensures no_fault { IfErr result (λ why. TellsNewFault why → ⊥) }
        ensures rests { IfErr result (λ why. activity_told self.old.loader why ≡ rests) }
        ensures works { IfErr result (λ why. is_idle why ≡ false) }
        ensures room { OnOk result (room_refusal (length self.old.waiting.free)
            (length (with_data self.old.origs.members self.old.zeros.members)) ≡ None) }
        ensures ready { OnOk result (self.new.waiting.placement.ready ≡ true) }
        ensures originals { self.new.waiting.originals ≡ with_data self.old.origs.members self.old.zeros.members }
        ensures free { self.new.waiting.free ≡ self.old.waiting.free }
        ensures loaded { self.new.waiting.loaded ≡ 0 }
        ensures zones { self.new.waiting.zones ≡ self.old.waiting.zones }
        ensures load { self.new ≡ record self.old { waiting = self.new.waiting } }
    {
        match self.waiting.plan(&self.origs, &self.zeros) {
            Ok(()) => Ok(()),
            Err(few) => Err(Reply::TooFewLoaderFrames {
                have: few.have,
                need: few.need,
            }),
        }
    }
}

impl OpenChain {
    ghost use Rattle.plain_machine.specs.declared.reply.Reply.TheVariants as reply;

    /// Counts a block that was read, and returns the reply with which the resume goes on.
    pub(crate) fn go_on(&mut self) -> Reply
        ensures counted { self.old.done + 1 < 2 ^ 32 → self.new.done ≡ self.old.done + 1 }
        ensures more { self.old.done ≤ self.new.done }
        ensures chain { self.new ≡ record self.old { done = self.new.done } }
        ensures reply { result ≡ reply.Loading self.new.done }
    {
        self.done = self.done.saturating_add(1);
        Reply::Loading { k: self.done }
    }
}

/// Returns what an image must match to be resumed on this machine.
pub(crate) fn expected_of(machine: &Machine, check: IdentCheck) -> Expected<'_>
    ensures zones { result.zones.now ≡ machine.now.hw.zones }
    ensures ident { Compares machine.now.hw check (option_copied result.ident) }
{
    Expected {
        zones: machine.hw.zones(),
        ident: match check {
            IdentCheck::Compare => Some(machine.hw.ident()),
            IdentCheck::Skip => None,
        },
    }
}
