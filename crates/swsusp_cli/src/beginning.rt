ghost use Rattle.std.specs.Prelude.{◌≡◌, None, IfErr, IfOk, MatchResult};
ghost use Rattle.world_core.specs.StandsFor.{IsNewWorld};
ghost use Rattle.command_kit.specs.View.{view};
ghost use Rattle.swsusp_cli.specs.Beginning.{HasBegun};
ghost use Rattle.swsusp_cli.specs.Causes.{HasCauseIn};
ghost use Rattle.swsusp_cli.specs.Outcome.{HandsOutAtMost, IsUnplayed};

use crate::replay::parse_input;
use crate::setting_up::set_up;
use byte_streams::{Sink, Source};
use command_kit::{Status, no_memory};
use machine::Hardware;
use page_core::NoMemory;
use script::Script;
use sector_disk::Disk;
use std::alloc::Global;
use world_core::World;

/// Reads a script, makes its machine, and formats the area that it names at the block of its first slot. Where one of
/// these fails it prints why, and returns the status that the command ends with.
#[inline(never)]
pub fn begin<I: Source, O: Sink, N: Sink, D: Disk>(
    alloc: Global,
    input: &mut I,
    out: &mut O,
    note: &mut N,
    disk: &mut D,
) -> Result<(Script, Box<World>), Status>
    ensures outcome { let x = view I.Source O.Sink N.Sink D.Disk input.old out.old note.old disk.old in
        let x' = view I.Source O.Sink N.Sink D.Disk input.new out.new note.new disk.new in
        MatchResult result (λ begun. HasBegun x x' begun.0 begun.1.value) (IsUnplayed x x') }
    ensures cause { IfErr result (HasCauseIn
        (view I.Source O.Sink N.Sink D.Disk input.old out.old note.old disk.old)
        (view I.Source O.Sink N.Sink D.Disk input.new out.new note.new disk.new)) }
    ensures read { HandsOutAtMost 1048577 (I.remaining input.old) (I.remaining input.new) }
{
    let script = match parse_input(alloc, input) {
        Ok(script) => script,
        Err(stop) => return Err(stop.tell(out, note)),
    };
    let world = match new_world(alloc, script.hardware()) {
        Ok(world) => world,
        Err(NoMemory) => return Err(no_memory().tell(out, note)),
    };
    match set_up(&script, disk) {
        Ok(()) => Ok((script, world)),
        Err(why) => Err(why.answer().tell(out, note)),
    }
}

/// Makes a machine that is off. It is boxed, since each call that returned it by value would move 33 KB.
#[inline(never)]
fn new_world(alloc: Global, hw: &Hardware) -> Result<Box<World>, NoMemory>
    ensures { IfOk result (λ world. IsNewWorld hw.now None world.value) }
{
    match World::create(alloc, *hw) {
        Ok(world) => boxed(alloc, world),
        Err(NoMemory) => Err(NoMemory),
    }
}

/// Boxes a machine. It has a frame of its own, since the error of `Box::new` would give the machine back.
#[inline(never)]
fn boxed(alloc: Global, world: World) -> Result<Box<World>, NoMemory>
    ensures { IfOk result (λ boxed. boxed.value ≡ world) }
{
    match Box::new(alloc, world) {
        Ok(boxed) => Ok(boxed),
        Err(_) => Err(NoMemory),
    }
}
