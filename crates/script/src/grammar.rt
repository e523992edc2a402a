ghost use Rattle.std.specs.Prelude.{◌≡◌, ◌<◌, ◌≤◌, IfOk, IfSome, IsOk, ◌↔◌, true, false, take, IfErr};
ghost use Rattle.std.specs.List.{list_all};
ghost use Rattle.script.specs.Shapes.{texts, words_of};
ghost use Rattle.script.specs.Grammar.{is_printable};
ghost use Rattle.script.specs.Items.{core_event_in, event_in, machine_event_in, outside_event_in};
ghost use Rattle.script.specs.Grammar.{line_item, words_item};
ghost use Rattle.script.specs.Items.{setting_in, setting_item, task_event_in, IsFittingItem};
ghost use Rattle.script.specs.Items.{IsFittingSetting};
ghost use Rattle.script.specs.Shapes.{actor_in, format_in, region_row, second_word};
ghost use Rattle.plain_machine.specs.Fitting.{IsFittingActor};

use crate::fault::FaultKind;
use crate::first_words::{
    MachineWord, OutsideWord, SettingWord, TaskWord, machine_word, outside_word, setting_word,
    task_word,
};
use crate::ranges::ranges;
use crate::words::{Span, numbers};
use page_core::Format;
use plain_machine::{Actor, BootFrom, Event, IdentCheck, Loader, TaskOp};
use std::alloc::AllocError;

// The numbers that each place of a line may have.
const FRAME: Span = Span(0, 65_535);

const FRAMES: Span = Span(1, 65_536);

const LAST: Span = Span(1, 16_383);

const FLAGS: Span = Span(0, 126);

const SIGNATURE: Span = Span(0, 4_294_967_295);

const SLOT: Span = Span(0, 16_383);

const LENGTH: Span = Span(1, 16_384);

const TASK: Span = Span(1, 64);

const TASK_SLOT: Span = Span(0, 131_071);

const WORD: Span = Span(0, 511);

const VALUE: Span = Span(0, u64::MAX);

const STEPS: Span = Span(1, 100_000);

const CALL: Span = Span(1, 1_000_000);

const CALLS: Span = Span(0, 1_000_000);

/// What a line says.
#[derive(Clone, Copy)]
pub enum Item {
    /// The line is empty, of spaces or a comment.
    Nothing,
    Sets(Setting),
    /// An event, and how many times it happens.
    Events(u32, Event),
}

/// What a setting says of the machine.
#[derive(Clone, Copy)]
pub enum Setting {
    /// A zone: its first page frame, and how many it has.
    Zone(u32, u32),
    /// The last page of the swap area.
    Last(u32),
    /// A slot that can't be used.
    Bad(u32),
    /// A region: its first page frame, how many it has, and the flags that fresh memory gives them.
    Region(u32, u32, u32),
    /// The first page frames of the frame table and of the slot table.
    Tables(u32, u32),
    /// The hardware signature.
    Signature(u32),
    /// An extent of the swap area: its first slot, how many it has, and the block of the first.
    Extent(u32, u32, u32),
}

/// Why a line wasn't read.
#[derive(Clone, Copy)]
pub enum LineStop {
    Fault(FaultKind),
    NoMemory,
}

impl From<AllocError> for LineStop {
    ghost use Rattle.std.specs.Prelude.{◌≡◌};
    ghost use Rattle.script.specs.declared.grammar.LineStop.TheVariants.{NoMemory};

    ghost from_gives = { λ _ stop. stop ≡ NoMemory };

    fn from(_: AllocError) -> LineStop {
        LineStop::NoMemory
    }
}

impl From<FaultKind> for LineStop {
    ghost use Rattle.std.specs.Prelude.{◌≡◌};
    ghost use Rattle.script.specs.declared.grammar.LineStop.TheVariants.{Fault};

    ghost from_gives = { λ kind stop. stop ≡ Fault kind };

    fn from(kind: FaultKind) -> LineStop {
        LineStop::Fault(kind)
    }
}

/// Reads what a line says from its first words. `begun` says whether an event stands before it.
#[tactic(auto, unfolding(crate::specs::Grammar::line_item))]
pub fn item_of_line(line: &[u8], words: &[&[u8]], begun: bool) -> Result<Item, FaultKind>
    requires printable { list_all is_printable line.now ≡ true }
    requires words { texts words.now ≡ take 10 (words_of line.now) }
    ensures says { result ≡ line_item begun line.now }
    ensures fits { IfOk result IsFittingItem }
{
    if let [b'#', ..] = line {
        return Ok(Item::Nothing);
    }
    match words {
        [] => Ok(Item::Nothing),
        [first, rest @ ..] => item_of_words(first, rest, begun),
    }
}

/// Refuses a setting after the first event.
fn before_events(begun: bool) -> Result<(), FaultKind>
    ensures ok { IsOk result ↔ (begun ≡ false) }
    ensures late { IfErr result (λ kind. kind ≡ FaultKind.Late) }
{
    if begun { Err(FaultKind::Late) } else { Ok(()) }
}

/// Returns the words after the first, which must be `word`.
fn behind<'a>(word: &[u8], words: &'a [&'a [u8]]) -> Result<&'a [&'a [u8]], FaultKind>
    ensures ok { IfOk result (λ rest. second_word word.now (texts words.now) ≡ Ok (texts rest.now)) }
    ensures err { IfErr result (λ kind. second_word word.now (texts words.now) ≡ Err kind) }
{
    match words {
        [] => Err(FaultKind::Count),
        [first, rest @ ..] => {
            if *first == word {
                Ok(rest)
            } else {
                Err(FaultKind::Word)
            }
        }
    }
}

fn task(t: u64, op: TaskOp) -> (u32, Event)
    requires { t < 4294967296 }
    ensures { result ≡ (1, Event.Task t op) }
{
    (1, Event::Task(t as u32, op))
}

/// Reads the actor from the words after `step`: the core, or a task by its number.
fn actor(words: &[&[u8]]) -> Result<Actor, FaultKind>
    ensures says { result ≡ actor_in (texts words.now) }
    ensures fits { IfOk result IsFittingActor }
{
    match words {
        [] => Err(FaultKind::Count),
        [first, rest @ ..] => {
            if *first == b"core".as_slice() {
                let [] = numbers(rest, [])?;
                return Ok(Actor::Core);
            }
            let [t] = numbers(words, [TASK])?;
            Ok(Actor::Task(t as u32))
        }
    }
}

/// Reads the format of the image's pages from the words after `hibernate` or `suspend`.
fn format(words: &[&[u8]]) -> Result<Format, FaultKind>
    ensures { result ≡ format_in (texts words.now) }
{
    if words.is_empty() {
        return Ok(Format::Plain);
    }
    let [] = numbers(behind(b"zeros", words)?, [])?;
    Ok(Format::SkipZeros)
}

/// Reads a region, whose flags are even.
fn region(words: &[&[u8]]) -> Result<Setting, FaultKind>
    ensures says { result ≡ region_row.reads (texts words.now) }
    ensures fits { IfOk result IsFittingSetting }
{
    let [start, count, flags] = numbers(words, [FRAME, FRAMES, FLAGS])?;
    if flags % 2 == 0 {
        Ok(Setting::Region(start as u32, count as u32, flags as u32))
    } else {
        Err(FaultKind::Range)
    }
}

/// Reads what the words of a line say, by the first of them.
fn item_of_words(first: &[u8], rest: &[&[u8]], begun: bool) -> Result<Item, FaultKind>
    ensures says { result ≡ words_item begun first.now (texts rest.now) }
    ensures fits { IfOk result IsFittingItem }
{
    match events_of(first, rest)? {
        Some((count, event)) => Ok(Item::Events(count, event)),
        None => item_of_setting(first, rest, begun),
    }
}

/// Reads what the words of a line say if the first isn't an event's.
fn item_of_setting(first: &[u8], rest: &[&[u8]], begun: bool) -> Result<Item, FaultKind>
    ensures says { result ≡ setting_item begun first.now (texts rest.now) }
    ensures fits { IfOk result IsFittingItem }
{
    match setting_of(first, rest) {
        Ok(Some(setting)) => {
            before_events(begun)?;
            Ok(Item::Sets(setting))
        }
        Err(kind) => {
            before_events(begun)?;
            Err(kind)
        }
        Ok(None) => Err(FaultKind::Word),
    }
}

/// Reads a line as a setting, if its first word is a setting's.
#[tactic(auto, unfolding(crate::specs::Items::setting_in))]
fn setting_of(first: &[u8], rest: &[&[u8]]) -> Result<Option<Setting>, FaultKind>
    ensures says { result ≡ setting_in first.now (texts rest.now) }
    ensures fits { IfOk result (λ setting. IfSome setting IsFittingSetting) }
{
    let Some(word) = setting_word(first) else {
        return Ok(None);
    };
    match word {
        SettingWord::Zone => {
            let [start, count] = numbers(rest, [FRAME, FRAMES])?;
            Ok(Some(Setting::Zone(start as u32, count as u32)))
        }
        SettingWord::Area => {
            let [last] = numbers(rest, [LAST])?;
            Ok(Some(Setting::Last(last as u32)))
        }
        SettingWord::Bad => {
            let [slot] = numbers(rest, [LAST])?;
            Ok(Some(Setting::Bad(slot as u32)))
        }
        SettingWord::Region => Ok(Some(region(rest)?)),
        SettingWord::Tables => {
            let [frames, slots] = numbers(rest, [FRAME, FRAME])?;
            Ok(Some(Setting::Tables(frames as u32, slots as u32)))
        }
        SettingWord::Hwsig => {
            let [signature] = numbers(rest, [SIGNATURE])?;
            Ok(Some(Setting::Signature(signature as u32)))
        }
        SettingWord::Extent => {
            let [start, length, block] = numbers(rest, [SLOT, LENGTH, SLOT])?;
            Ok(Some(Setting::Extent(start as u32, length as u32, block as u32)))
        }
    }
}

/// Reads a line as an event and how many times it happens, if its first word is an event's.
fn events_of(first: &[u8], rest: &[&[u8]]) -> Result<Option<(u32, Event)>, FaultKind>
    ensures says { result ≡ event_in first.now (texts rest.now) }
    ensures fits { IfOk result (λ events. IfSome events (λ e. IsFittingItem (Item.Events e.0 e.1))) }
{
    match task_event_of(first, rest)? {
        Some(event) => Ok(Some(event)),
        None => core_events_of(first, rest),
    }
}

/// Reads a line as an event of the whole machine and how many times it happens, if its first word is such an event's.
fn core_events_of(first: &[u8], rest: &[&[u8]]) -> Result<Option<(u32, Event)>, FaultKind>
    ensures says { result ≡ core_event_in first.now (texts rest.now) }
    ensures fits { IfOk result (λ events. IfSome events (λ e. IsFittingItem (Item.Events e.0 e.1))) }
{
    match machine_events_of(first, rest)? {
        Some(events) => Ok(Some(events)),
        None => outside_events_of(first, rest),
    }
}

/// Reads a line as an event that the machine as a whole is to take.
#[tactic(auto, unfolding(crate::specs::Items::machine_event_in))]
fn machine_events_of(first: &[u8], rest: &[&[u8]]) -> Result<Option<(u32, Event)>, FaultKind>
    ensures says { result ≡ machine_event_in first.now (texts rest.now) }
    ensures fits { IfOk result (λ events. IfSome events (λ e. IsFittingItem (Item.Events e.0 e.1))) }
{
    let Some(word) = machine_word(first) else {
        return Ok(None);
    };
    match word {
        MachineWord::Boot => {
            let [] = numbers(rest, [])?;
            Ok(Some((1, Event::Boot(BootFrom::Fresh))))
        }
        MachineWord::Hibernate => Ok(Some((1, Event::Hibernate(format(rest)?)))),
        MachineWord::Suspend => Ok(Some((1, Event::Suspend(format(rest)?)))),
        MachineWord::Wake => {
            let [] = numbers(rest, [])?;
            Ok(Some((1, Event::Wake)))
        }
        MachineWord::Settle => {
            let [] = numbers(rest, [])?;
            Ok(Some((1, Event::Settle)))
        }
        MachineWord::Shrink => {
            let [want] = numbers(rest, [VALUE])?;
            Ok(Some((1, Event::Shrink(want))))
        }
        MachineWord::Resume => {
            let loader = Loader::Ranges(ranges(rest)?);
            Ok(Some((1, Event::Resume(loader, IdentCheck::Compare))))
        }
    }
}

/// Reads a line as an event from outside, or as steps of the core or a task.
#[tactic(auto, unfolding(crate::specs::Items::outside_event_in))]
fn outside_events_of(first: &[u8], rest: &[&[u8]]) -> Result<Option<(u32, Event)>, FaultKind>
    ensures says { result ≡ outside_event_in first.now (texts rest.now) }
    ensures fits { IfOk result (λ events. IfSome events (λ e. IsFittingItem (Item.Events e.0 e.1))) }
{
    let Some(word) = outside_word(first) else {
        return Ok(None);
    };
    match word {
        OutsideWord::Cut => {
            let [pick] = numbers(rest, [VALUE])?;
            Ok(Some((1, Event::Cut(pick))))
        }
        OutsideWord::Arm => {
            let [call, calls, pick] = numbers(rest, [CALL, CALLS, VALUE])?;
            let (first, count) = (call as u32, calls as u32);
            Ok(Some((1, Event::Arm { first, count, pick })))
        }
        OutsideWord::Step => Ok(Some((1, Event::Step(actor(rest)?)))),
        OutsideWord::Steps => {
            let [n] = numbers(behind(b"core", rest)?, [STEPS])?;
            Ok(Some((n as u32, Event::Step(Actor::Core))))
        }
    }
}

/// Reads a line as a task's request.
#[tactic(auto, unfolding(crate::specs::Items::task_event_in))]
fn task_event_of(first: &[u8], rest: &[&[u8]]) -> Result<Option<(u32, Event)>, FaultKind>
    ensures says { result ≡ task_event_in first.now (texts rest.now) }
    ensures fits { IfOk result (λ events. IfSome events (λ e. IsFittingItem (Item.Events e.0 e.1))) }
{
    let Some(word) = task_word(first) else {
        return Ok(None);
    };
    match word {
        TaskWord::Claim => {
            let [t, p] = numbers(rest, [TASK, FRAME])?;
            Ok(Some(task(t, TaskOp::Claim(p as u32))))
        }
        TaskWord::Release => {
            let [t, p] = numbers(rest, [TASK, FRAME])?;
            Ok(Some(task(t, TaskOp::Release(p as u32))))
        }
        TaskWord::Store => {
            let [t, p, k, v] = numbers(rest, [TASK, FRAME, WORD, VALUE])?;
            Ok(Some(task(t, TaskOp::Store(p as u32, k as u32, v))))
        }
        TaskWord::Show => {
            let [t, p, k] = numbers(rest, [TASK, FRAME, WORD])?;
            Ok(Some(task(t, TaskOp::Show(p as u32, k as u32))))
        }
        TaskWord::Cache => {
            let [t, p] = numbers(rest, [TASK, FRAME])?;
            Ok(Some(task(t, TaskOp::Cache(p as u32))))
        }
        TaskWord::Out => {
            let [t, p] = numbers(rest, [TASK, FRAME])?;
            Ok(Some(task(t, TaskOp::Out(p as u32))))
        }
        TaskWord::In => {
            let [t, slot, p] = numbers(rest, [TASK, TASK_SLOT, FRAME])?;
            Ok(Some(task(t, TaskOp::TakeIn(slot as u32, p as u32))))
        }
    }
}
