//! Which call of the disk a step makes.
ghost use Rattle.std.specs.Prelude.{◌≡◌, ◌==◌, if◌then◌else◌};
ghost use Rattle.run_picture.specs.Calls.{back_call, boot_call, call_of, core_call, failing, load_call, load_step};
ghost use Rattle.run_picture.specs.Calls.{save_call, save_step, task_call, undo_call, undone_by, undone_call, unloaded};
ghost use Rattle.run_picture.specs.Calls.{unmarked};

use crate::lanes::Activity;
use crate::telling::{Failing, Told};
use plain_machine::{Actor, Event, Left, UndoCall};

/// A call of the disk, by what it does.
#[derive(Clone, Copy)]
pub(crate) enum Call {
    /// A write of a page or a map.
    Write,
    /// A read of a page or a map.
    Read,
    /// A read of the header block.
    Header,
    Sync,
    /// A write of the header block with the mark.
    Mark,
    /// A write of the header block with the mark taken back.
    Back,
}

/// The call that is drawn in a column.
#[derive(Clone, Copy)]
pub(crate) enum Drawn {
    NoCall,
    Made(Call),
    Fails(Call),
}

/// Returns the call that an event makes, given what the machine does before it and its reply.
pub(crate) fn call_of(activity: Activity, event: &Event, told: Told) -> Drawn
    ensures { result ≡ call_of activity event.now told }
{
    match event {
        Event::Step(Actor::Core) => core_call(activity, told),
        Event::Step(Actor::Task(_)) => task_call(told),
        _ => Drawn::NoCall,
    }
}

fn core_call(activity: Activity, told: Told) -> Drawn
    ensures { result ≡ core_call activity told }
{
    match activity {
        Activity::Boots => boot_call(told),
        Activity::Saves => save_call(told),
        Activity::Undoes => undo_call(told),
        Activity::Undone => undone_call(told),
        Activity::Settles => back_call(told),
        Activity::Wakes => back_call(told),
        Activity::Loads => load_call(told),
        _ => Drawn::NoCall,
    }
}

fn boot_call(told: Told) -> Drawn
    ensures { result ≡ boot_call told }
{
    match told {
        Told::More { .. } => Drawn::Made(Call::Sync),
        Told::Booted { .. } => Drawn::Made(Call::Header),
        Told::Fault {
            call: Failing::Sync,
            ..
        } => Drawn::Fails(Call::Sync),
        Told::Fault {
            call: Failing::Read,
            ..
        } => Drawn::Fails(Call::Header),
        _ => Drawn::NoCall,
    }
}

fn save_call(told: Told) -> Drawn
    ensures { result ≡ save_call told }
{
    match told {
        Told::More { k, of } => Drawn::Made(save_step(of.saturating_sub(k))),
        Told::Saved => Drawn::Made(Call::Sync),
        Told::Slept => Drawn::Made(Call::Sync),
        Told::Undo { call, .. } => Drawn::Fails(unmarked(call)),
        Told::Fault { call, .. } => Drawn::Fails(failing(call, Call::Write)),
        Told::Other => Drawn::Made(Call::Header),
        _ => Drawn::NoCall,
    }
}

/// Returns the call of a hibernation after which `left` steps are left.
fn save_step(left: u32) -> Call
    ensures { result ≡ save_step left }
{
    if left == 1 {
        Call::Mark
    } else if left == 2 {
        Call::Header
    } else if left == 3 {
        Call::Sync
    } else {
        Call::Write
    }
}

fn unmarked(call: UndoCall) -> Call
    ensures { result ≡ unmarked call }
{
    match call {
        UndoCall::Write => Call::Mark,
        UndoCall::Sync => Call::Sync,
    }
}

/// Returns the call that fails, where only the header block is read and this is what is written.
fn failing(call: Failing, written: Call) -> Call
    ensures { result ≡ failing call written }
{
    match call {
        Failing::Read => Call::Header,
        Failing::Write => written,
        Failing::Sync => Call::Sync,
    }
}

fn undo_call(told: Told) -> Drawn
    ensures { result ≡ undo_call told }
{
    match told {
        Told::Undo { .. } => Drawn::Made(Call::Back),
        Told::Fault { .. } => Drawn::Fails(Call::Back),
        _ => Drawn::NoCall,
    }
}

fn undone_call(told: Told) -> Drawn
    ensures { result ≡ undone_call told }
{
    match told {
        Told::Fault { left, .. } => undone_by(left),
        _ => Drawn::NoCall,
    }
}

fn undone_by(left: Left) -> Drawn
    ensures { result ≡ undone_by left }
{
    match left {
        Left::Unsure => Drawn::Fails(Call::Sync),
        Left::Gone => Drawn::Made(Call::Sync),
        Left::Same => Drawn::Made(Call::Sync),
    }
}

fn back_call(told: Told) -> Drawn
    ensures { result ≡ back_call told }
{
    match told {
        Told::More { k, .. } => Drawn::Made(if k == 1 { Call::Header } else { Call::Back }),
        Told::Runs => Drawn::Made(Call::Sync),
        Told::Fault { call, .. } => Drawn::Fails(failing(call, Call::Back)),
        _ => Drawn::NoCall,
    }
}

fn load_call(told: Told) -> Drawn
    ensures { result ≡ load_call told }
{
    match told {
        Told::Loading { k } => Drawn::Made(load_step(k)),
        Told::Runs => Drawn::Made(Call::Read),
        Told::NoImage => Drawn::Made(Call::Header),
        Told::Compressed => Drawn::Made(Call::Header),
        Told::Fault { call, left } => Drawn::Fails(unloaded(call, left)),
        Told::Other => Drawn::Made(Call::Read),
        _ => Drawn::NoCall,
    }
}

/// Returns the call that is step k of a resume.
fn load_step(k: u32) -> Call
    ensures { result ≡ load_step k }
{
    match k {
        1 => Call::Sync,
        2 => Call::Header,
        3 => Call::Back,
        4 => Call::Sync,
        _ => Call::Read,
    }
}

fn unloaded(call: Failing, left: Left) -> Call
    ensures { result ≡ unloaded call left }
{
    match (call, left) {
        (Failing::Read, Left::Gone) => Call::Read,
        _ => failing(call, Call::Back),
    }
}

fn task_call(told: Told) -> Drawn
    ensures { result ≡ task_call told }
{
    match told {
        Told::Written => Drawn::Made(Call::Write),
        Told::Fetched => Drawn::Made(Call::Read),
        Told::Fault {
            call: Failing::Write,
            ..
        } => Drawn::Fails(Call::Write),
        Told::Fault {
            call: Failing::Read,
            ..
        } => Drawn::Fails(Call::Read),
        _ => Drawn::NoCall,
    }
}
