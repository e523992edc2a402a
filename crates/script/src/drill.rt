ghost use Rattle.std.specs.Prelude.{◌≡◌, ℕ, ◌+◌, ◌*◌, ◌<◌, ◌≤◌, ◌∷◌, ◌++◌, [], All, IfOk, OnOk, length, flat_map, map};
ghost use Rattle.std.specs.Prelude.{reverse, replicate};
ghost use Rattle.plain_machine.specs.declared.event.Event.TheVariants.{Cut};
ghost use Rattle.plain_machine.specs.Fitting.{IsFitting};
ghost use Rattle.plain_machine.specs.Image.{maps_of, maps_read};
ghost use Rattle.script.specs.Drill.{asks, below, boots, claimed, claims, core_steps, drill_events, drill_hardware};
ghost use Rattle.script.specs.Drill.{drill_script, goes_out, gone_out, hibernates, loader_ranges, pages, resumes};
ghost use Rattle.script.specs.Drill.{shows, steps, stores, swapped, taken_in, takes_in, value};
ghost use Rattle.script.specs.Shapes.{IsScripted};

use crate::ident::scripted_ident;
use crate::reading::Script;
use definitions::WORDS_PER_PAGE;
use machine::{Hardware, Parts};
use page_core::{Format, NoMemory};
use plain_machine::{
    Actor, BootFrom, Event, IdentCheck, Loader, Ranges, TaskOp, image_pages, image_reads,
    image_writes,
};
use std::alloc::{AllocError, Global};

/// The most page frames that are swapped out.
const MOST_SWAPPED: u32 = 8;

/// The page frames that the two tables take.
const TABLE_FRAMES: u32 = 24;

/// Makes the run of drill `number`: a machine of 8192 page frames and 16,384 slots, and events that claim `number` page
/// frames, swap some out, hibernate, cut the power, resume and show what was stored.
pub fn generate(alloc: Global, number: u32) -> Result<Script, NoMemory>
    requires some { 1 ≤ number }
    requires few { number ≤ 2000 }
    ensures script { IfOk result (λ script. script ≡ drill_script number) }

    // The same holds of a script that is read.
    ensures few_bad { IfOk result (λ script. length script.bad ≤ 630) }
    ensures fits { IfOk result (λ script. All IsFitting script.events) }
    ensures scripted { IfOk result (λ script. All IsScripted script.events) }
    ensures few_events { IfOk result (λ script. length script.events ≤ 100000) }
{
    let events = match events(alloc, number) {
        Ok(events) => events,
        Err(AllocError) => return Err(NoMemory),
    };
    Ok(Script {
        hardware: hardware(),
        last: 16383,
        bad: Vec::new(alloc),
        events,
    })
}

fn hardware() -> Hardware
    ensures { result ≡ drill_hardware }
{
    match Hardware::of(&Parts {
        zones: &[(0, 8192)],
        slots: 16384,
        frame_table: 0,
        slot_table: 8,
        regions: &[],
        ident: scripted_ident(),
        hw_sig: 0,
        extents: &[(0, 16384, 0)],
    }) {
        Ok(hardware) => hardware,
        Err(_) => unreachable!(),
    }
}

#[tactic(auto, unfolding(crate::specs::Drill::drill_events))]
fn events(alloc: Global, number: u32) -> Result<Vec<Event>, AllocError>
    requires few { number ≤ 2000 }
    ensures events { IfOk result (λ events. events.items ≡ drill_events number) }
{
    let count = swapped(number);
    let pages = pages(number);
    let mut events = Vec::new(alloc);
    add_boot(&mut events)?;
    add_claims(&mut events, number)?;
    swap_out(&mut events, number, count)?;
    add_hibernation(&mut events, pages)?;
    add_resume(&mut events, number, pages)?;
    add_shows(&mut events, number)?;
    swap_in(&mut events, count)?;
    Ok(events)
}

/// Returns how many page frames are swapped out.
fn swapped(number: u32) -> u32
    ensures count { result ≡ swapped number }
    ensures few { result ≤ 8 }
{
    if number < MOST_SWAPPED {
        number
    } else {
        MOST_SWAPPED
    }
}

/// Returns the number of the `i`-th page frame.
fn frame(i: u32) -> u32
    requires { i < 2000 }
    ensures { result ≡ 100 + 2 * i }
{
    100 + 2 * i
}

/// Returns the event in which the task of the `i`-th page frame requests `op`.
fn asks(i: u32, op: TaskOp) -> Event
    ensures { result ≡ asks i op }
{
    Event::Task(1 + i % 64, op)
}

/// Returns the step of the task of the `i`-th page frame.
fn step(i: u32) -> Event
    ensures { result ≡ steps i }
{
    Event::Step(Actor::Task(1 + i % 64))
}

fn claim(i: u32) -> Event
    requires { i < 2000 }
    ensures { result ≡ claims i }
{
    asks(i, TaskOp::Claim(frame(i)))
}

fn store(i: u32, value: u64) -> Event
    requires { i < 2000 }
    ensures { result ≡ stores value i }
{
    asks(i, TaskOp::Store(frame(i), i % WORDS_PER_PAGE, value))
}

fn show(i: u32) -> Event
    requires { i < 2000 }
    ensures { result ≡ shows i }
{
    asks(i, TaskOp::Show(frame(i), i % WORDS_PER_PAGE))
}

fn out(i: u32) -> Event
    requires { i < 2000 }
    ensures { result ≡ goes_out i }
{
    asks(i, TaskOp::Out(frame(i)))
}

fn take_in(i: u32) -> Event
    requires { i < 2000 }
    ensures { result ≡ takes_in i }
{
    asks(i, TaskOp::TakeIn(i + 1, frame(i)))
}

/// Returns what drill `number` stores into the `i`-th page frame.
fn value(number: u32, i: u32) -> u64
    ensures value { result ≡ value number i }
{
    1000003 * u64::from(number) + 7919 * u64::from(i)
}

/// Returns how many pages the stream of the image has.
fn pages(number: u32) -> u32
    requires { number ≤ 2000 }
    ensures pages { result ≡ pages number }
    ensures few { result ≤ 3000 }
{
    let saved = TABLE_FRAMES + number;
    image_pages(saved, saved)
}

fn add_core_steps(events: &mut Vec<Event>, count: u32) -> Result<(), AllocError>
    ensures { OnOk result (events.new.items ≡ events.old.items ++ core_steps count) }
{
    events.resize(events.len() + count as usize, Event::Step(Actor::Core))
}

fn add_boot(events: &mut Vec<Event>) -> Result<(), AllocError>
    requires { events.old.items ≡ [] }
    ensures { OnOk result (events.new.items ≡ boots) }
{
    events.push(Event::Boot(BootFrom::Fresh))?;
    add_core_steps(events, 2)
}

fn add_claims(events: &mut Vec<Event>, number: u32) -> Result<(), AllocError>
    requires { number ≤ 2000 }
    ensures { OnOk result (events.new.items ≡ events.old.items ++ claimed number) }
{
    for i in 0..number {
        events.push(claim(i))?;
        events.push(store(i, value(number, i)))?;
    }
    Ok(())
}

/// Adds the events in which the first `count` page frames go out, the last one written first, and are stored into
/// again.
fn swap_out(events: &mut Vec<Event>, number: u32, count: u32) -> Result<(), AllocError>
    requires { count ≤ 2000 }
    ensures { OnOk result (events.new.items ≡ events.old.items ++ gone_out number count) }
{
    add_outs(events, count)?;
    add_last_steps_first(events, count)?;
    add_stores(events, number, count)
}

/// Adds the events in which the first `count` pages come in again and are shown.
fn swap_in(events: &mut Vec<Event>, count: u32) -> Result<(), AllocError>
    requires { count ≤ 2000 }
    ensures { OnOk result (events.new.items ≡ events.old.items ++ taken_in count) }
{
    add_ins(events, count)?;
    add_steps(events, count)?;
    add_shows(events, count)
}

fn add_outs(events: &mut Vec<Event>, count: u32) -> Result<(), AllocError>
    requires { count ≤ 2000 }
    ensures { OnOk result (events.new.items ≡ events.old.items ++ map goes_out (below count)) }
{
    for i in 0..count {
        events.push(out(i))?;
    }
    Ok(())
}

fn add_last_steps_first(events: &mut Vec<Event>, count: u32) -> Result<(), AllocError>
    ensures { OnOk result (events.new.items ≡ events.old.items ++ map steps (reverse (below count))) }
{
    for i in (0..count).rev() {
        events.push(step(i))?;
    }
    Ok(())
}

/// Adds stores of one more than was stored before.
fn add_stores(events: &mut Vec<Event>, number: u32, count: u32) -> Result<(), AllocError>
    requires { count ≤ 2000 }
    ensures { OnOk result (events.new.items ≡ events.old.items
        ++ map (λ i. stores (value number i + 1) i) (below count)) }
{
    for i in 0..count {
        events.push(store(i, value(number, i) + 1))?;
    }
    Ok(())
}

fn add_hibernation(events: &mut Vec<Event>, pages: u32) -> Result<(), AllocError>
    requires { pages ≤ 3000 }
    ensures { OnOk result (events.new.items ≡ events.old.items ++ Event.Hibernate Format.Plain
        ∷ core_steps (pages + maps_of pages + 4)) }
{
    events.push(Event::Hibernate(Format::Plain))?;
    add_core_steps(events, image_writes(pages) + 4)
}

/// Adds a power cut and a resume.
fn add_resume(events: &mut Vec<Event>, pick: u32, pages: u32) -> Result<(), AllocError>
    requires { pages ≤ 3000 }
    ensures { OnOk result (events.new.items ≡ events.old.items ++ Event.Cut pick
        ∷ Event.Resume (Loader.Ranges loader_ranges) IdentCheck.Compare ∷ core_steps (4 + maps_read pages + pages)) }
{
    events.push(Event::Cut(u64::from(pick)))?;
    events.push(Event::Resume(Loader::Ranges(held_by_loader()), IdentCheck::Compare))?;
    add_core_steps(events, 4 + image_reads(pages))
}

/// Returns the page frames that the loader holds.
fn held_by_loader() -> Ranges
    ensures { result ≡ loader_ranges }
{
    let mut list = [(0, 0); 8];
    list[0] = (0, 99);
    list[1] = (4000, 4999);
    Ranges { count: 2, list }
}

fn add_shows(events: &mut Vec<Event>, count: u32) -> Result<(), AllocError>
    requires { count ≤ 2000 }
    ensures { OnOk result (events.new.items ≡ events.old.items ++ map shows (below count)) }
{
    for i in 0..count {
        events.push(show(i))?;
    }
    Ok(())
}

fn add_ins(events: &mut Vec<Event>, count: u32) -> Result<(), AllocError>
    requires { count ≤ 2000 }
    ensures { OnOk result (events.new.items ≡ events.old.items ++ map takes_in (below count)) }
{
    for i in 0..count {
        events.push(take_in(i))?;
    }
    Ok(())
}

fn add_steps(events: &mut Vec<Event>, count: u32) -> Result<(), AllocError>
    ensures { OnOk result (events.new.items ≡ events.old.items ++ map steps (below count)) }
{
    for i in 0..count {
        events.push(step(i))?;
    }
    Ok(())
}
