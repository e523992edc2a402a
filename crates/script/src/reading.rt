ghost use Rattle.std.specs.Prelude.{◌≡◌, ◌+◌, ◌<◌, ◌≤◌, ◌∷◌, ◌++◌, ℕ, All, IfOk, IfErr, IfSome, OnOk, length, drop};
ghost use Rattle.std.specs.Prelude.{true, false, Ok, Err, Some, None, []};
ghost use Rattle.plain_machine.specs.Fitting.{IsFitting};
ghost use Rattle.script.specs.Grammar.{end_fault, events_of, first_line, kind_after, kind_by, line_count, line_item};
ghost use Rattle.script.specs.Grammar.{lines_in, lines_of, script_by, script_of, setting_of, stop_at};
ghost use Rattle.script.specs.Items.{settings_behind};
ghost use Rattle.script.specs.Items.{IsFittingItem, StopsBy};
ghost use Rattle.script.specs.Reading.{IsOfLines, IsSettled};
ghost use Rattle.script.specs.Settings.{hardware_by, is_faulty};
ghost use Rattle.script.specs.Items.{IsLastPage};
ghost use Rattle.script.specs.Shapes.{IsScripted};
ghost use Rattle.script.specs.declared.fault.ScriptFault.{ScriptFault};

use crate::fault::{FaultKind, ParseStop, ScriptFault};
use crate::grammar::{Item, LineStop, item_of_line};
use crate::lines::first_line;
use crate::settings::Settings;
use arrayvec::ArrayVec;
use machine::Hardware;
use plain_machine::Event;
use std::alloc::Global;
use std::marker::Model;

/// The most bytes that a script may have.
const MAX_BYTES: usize = 1_048_576;

/// The most events that a script may have.
const MAX_EVENTS: usize = 100_000;

/// A script: the machine that its settings describe, and its events.
#[derive(Drop)]
pub struct Script {
    pub(crate) hardware: Hardware,
    pub(crate) last: u32,
    pub(crate) bad: Vec<u32>,
    pub(crate) events: Vec<Event>,
}

impl Model for Script {
    ghost use Rattle.script.specs.Grammar.{ScriptValue};

    ghost Value = { ScriptValue };

    ghost view = { λ s. record { hardware = s.hardware; last = s.last; bad = s.bad.items; events = s.events.items } };
}

impl Script {
    /// Returns the hardware of the machine.
    pub fn hardware(&self) -> &Hardware
        ensures { result.now ≡ self.now.hardware }
    {
        &self.hardware
    }

    /// Returns the last page of the swap area.
    pub fn last(&self) -> u32
        ensures { result ≡ self.now.last }
    {
        self.last
    }

    /// Returns the slots of the swap area that can't be used, in the order of their lines.
    pub fn bad(&self) -> &[u32]
        ensures { result.now ≡ self.now.bad }
    {
        self.bad.as_slice()
    }

    /// Returns the events, in order.
    pub fn events(&self) -> &[Event]
        ensures { result.now ≡ self.now.events }
    {
        self.events.as_slice()
    }
}

/// A script as far as it has been read. The hardware is known from the first event on.
#[derive(Drop)]
struct Reader {
    settings: Settings,
    hardware: Option<Hardware>,
    events: Vec<Event>,
}

impl Model for Reader {
    ghost use Rattle.script.specs.Reading.{Reading};

    ghost Value = { Reading };

    ghost view = { λ r. record { settings = r.settings; hardware = r.hardware; events = r.events.items } };
}

impl Reader {
    ghost use Rattle.script.specs.Grammar.{by_kind};

    /// Makes a reader that has read nothing.
    fn new(alloc: Global) -> Reader
        ensures settings { result.settings ≡ by_kind [] }
        ensures events { result.events ≡ [] }
        ensures reading { IsOfLines result }
    {
        Reader {
            settings: Settings::new(alloc),
            hardware: None,
            events: Vec::new(alloc),
        }
    }

    /// Settles the hardware, if the settings describe a machine. This is a function of its own because the hardware is
    /// large, so that only the first event pays for its room.
    #[inline(never)]
    fn settle(&mut self) -> Result<(), FaultKind>
        requires { IsOfLines self.old }
        ensures settled { OnOk result (self.new ≡ record self.old { hardware = Some (hardware_by self.old.settings) }) }
        ensures sound { OnOk result (is_faulty self.old.settings ≡ false) }
        ensures fault { IfErr result (λ kind. (kind ≡ FaultKind.Hardware) × (is_faulty self.old.settings ≡ true)) }
    {
        self.hardware = Some(self.settings.hardware().ok_or(FaultKind::Hardware)?);
        Ok(())
    }

    /// Adds an event `count` times. The first event of a script needs settings that describe a machine.
    fn add_events(&mut self, count: u32, event: Event) -> Result<(), LineStop>
        requires fits { IsFittingItem (Item.Events count event) }
        requires reading { IsOfLines self.old }
        ensures settings { OnOk result (self.new.settings ≡ self.old.settings) }
        ensures events { OnOk result (self.new.events ≡ self.old.events ++ events_of (Ok (Item.Events count event))) }
        ensures reading { OnOk result (IsOfLines self.new) }
        ensures none { OnOk result (kind_by self.old.settings self.old.events (Ok (Item.Events count event)) ≡ None) }
        ensures fault { IfErr result (StopsBy
            (kind_by self.old.settings self.old.events (Ok (Item.Events count event)))) }
    {
        let more = count as usize;
        if more > MAX_EVENTS - self.events.len() {
            return Err(LineStop::Fault(FaultKind::Events));
        }
        if self.hardware.is_none() {
            self.settle()?;
        }
        self.events.resize(self.events.len() + more, event)?;
        Ok(())
    }

    /// Adds what a line says.
    fn add(&mut self, item: Item) -> Result<(), LineStop>
        requires fits { IsFittingItem item }
        requires reading { IsOfLines self.old }
        requires early { 0 < length self.old.events → setting_of (Ok item) ≡ None }
        ensures settings { OnOk result (self.new.settings ≡ settings_behind (Ok item) self.old.settings) }
        ensures events { OnOk result (self.new.events ≡ self.old.events ++ events_of (Ok item)) }
        ensures reading { OnOk result (IsOfLines self.new) }
        ensures none { OnOk result (kind_by self.old.settings self.old.events (Ok item) ≡ None) }
        ensures fault { IfErr result (StopsBy (kind_by self.old.settings self.old.events (Ok item))) }
    {
        match item {
            Item::Nothing => Ok(()),
            Item::Sets(setting) => Ok(self.settings.add(setting)?),
            Item::Events(count, event) => self.add_events(count, event),
        }
    }

    /// Adds what the first line of a text says, and returns the text after it, if there is any.
    fn read<'a>(&mut self, text: &'a [u8]) -> Result<Option<&'a [u8]>, LineStop>
        requires { IsOfLines self.old }
        ensures settings { OnOk result (self.new.settings ≡ settings_behind (line_item false (first_line text.now))
            self.old.settings) }
        ensures events { OnOk result (self.new.events ≡ self.old.events
            ++ events_of (line_item false (first_line text.now))) }
        ensures reading { OnOk result (IsOfLines self.new) }
        ensures none { OnOk result (kind_after self.old.settings self.old.events (first_line text.now) ≡ None) }
        ensures behind { IfOk result (λ behind. lines_in behind ≡ drop 1 (lines_of text.now)) }
        ensures fault { IfErr result (StopsBy (kind_after self.old.settings self.old.events (first_line text.now))) }
    {
        let mut words = ArrayVec::new();
        let first = first_line(text, &mut words)?;
        let item = item_of_line(first.line, words.as_slice(), !self.events.is_empty())?;
        self.add(item)?;
        Ok(first.behind)
    }

    /// Returns the script that was read, if its settings describe a machine.
    fn finish(self) -> Option<Script>
        requires { IsOfLines self }
        ensures script { IfSome result (λ script. script ≡ script_by self.settings self.events) }
        ensures no_fault { IfSome result (λ script. (line : ℕ) → end_fault line self.settings self.events ≡ []) }
        ensures sound { IfSome result (λ script. is_faulty self.settings ≡ false) }
        ensures fault { result ≡ None → (line : ℕ) →
            end_fault line self.settings self.events ≡ record { line = line; kind = FaultKind.Hardware } ∷ [] }
    {
        let Reader {
            settings,
            hardware,
            events,
        } = self;
        let hardware = hardware.or_else(|| settings.hardware())?;
        Some(Script {
            hardware,
            last: settings.last(),
            bad: settings.into_bad(),
            events,
        })
    }
}

impl LineStop {
    /// Returns the stop of a script that stops at this line.
    fn at(self, line: u32) -> ParseStop
        ensures { result ≡ stop_at self line }
    {
        match self {
            LineStop::Fault(kind) => ParseStop::Fault(ScriptFault { line, kind }),
            LineStop::NoMemory => ParseStop::NoMemory,
        }
    }
}

/// Returns how many lines a script has.
#[tactic(auto, unfolding(crate::specs::Grammar::line_count))]
fn line_count(bytes: &[u8]) -> u32
    requires { length bytes.now ≤ 1048576 }
    ensures count { result ≡ line_count bytes.now }
    ensures few { result ≤ 1048577 }
{
    let ended = bytes.iter().filter(|b| **b == b'\n').count() as u32;
    match bytes.last() {
        None | Some(b'\n') => ended,
        Some(_) => ended + 1,
    }
}

/// Reads a script. On a fault, names the first.
pub fn parse(alloc: Global, bytes: &[u8]) -> Result<Script, ParseStop>
    ensures script { IfOk result (λ script. script_of bytes.now ≡ Ok script) }
    ensures fault { (fault : ScriptFault) → result ≡ Err (ParseStop.Fault fault) → script_of bytes.now ≡ Err fault }

    // The last page and the bad slots are ones that an area may have, the area is the machine's, and each event is one
    // that the machine takes and that a line may give.
    ensures slots { IfOk result (λ script. script.hardware.slots ≡ script.last + 1) }
    ensures area { IfOk result (λ script. IsLastPage script.last) }
    ensures few_bad { IfOk result (λ script. length script.bad ≤ 630) }
    ensures bad { IfOk result (λ script. All (λ slot. (1 ≤ slot) × (slot ≤ script.last)) script.bad) }
    ensures fits { IfOk result (λ script. All IsFitting script.events) }
    ensures scripted { IfOk result (λ script. All IsScripted script.events) }
    ensures few { IfOk result (λ script. length script.events ≤ 100000) }
{
    if bytes.len() > MAX_BYTES {
        return Err(LineStop::Fault(FaultKind::TooLong).at(0));
    }
    let mut reader = Reader::new(alloc);
    let mut left = Some(bytes);
    let mut number = 0;
    while let Some(text) = left {
        number += 1;
        left = match reader.read(text) {
            Ok(behind) => behind,
            Err(stop) => return Err(stop.at(number)),
        };
    }
    match reader.finish() {
        Some(script) => Ok(script),
        None => Err(LineStop::Fault(FaultKind::Hardware).at(line_count(bytes) + 1)),
    }
}
