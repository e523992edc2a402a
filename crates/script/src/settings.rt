ghost use Rattle.std.specs.Prelude.{◌≡◌, ◌≤◌, ◌↔◌, All, IfSome, IsNone, OnOk, length, nat_lt, true, []};
ghost use Rattle.std.specs.List.{list_any};
ghost use Rattle.script.specs.Settings.{hardware_by, is_faulty, or_default, tables_by, tables_in};
ghost use Rattle.script.specs.Items.{with_setting};
ghost use Rattle.script.specs.Settings.{zones_by, SettingsValue};
ghost use Rattle.script.specs.Items.{AreFitting, IsFittingSetting, IsZoneLine};

use crate::grammar::Setting;
use crate::ident::scripted_ident;
use definitions::ENTRIES_PER_FRAME;
use image_format::MOST_BADPAGES;
use machine::{Hardware, Parts};
use std::alloc::{AllocError, Global};
use std::marker::Model;

/// The last page of a swap area if no line sets it.
const DEFAULT_LAST: u32 = 3000;

/// The zones if no line names one.
const DEFAULT_ZONES: [(u32, u32); 1] = [(0, 4096)];

/// What the settings of a script say so far.
#[derive(Drop)]
pub struct Settings {
    zones: Vec<(u32, u32)>,
    last: u32,
    bad: Vec<u32>,
    regions: Vec<(u32, u32, u32)>,
    tables: Option<(u32, u32)>,
    hw_sig: u32,
    extents: Vec<(u32, u32, u32)>,
}

impl Model for Settings {
    ghost Value = { SettingsValue };

    ghost view = { λ s. record {
      zones = s.zones.items;
      last = s.last;
      bad = s.bad.items;
      regions = s.regions.items;
      tables = s.tables;
      hw_sig = s.hw_sig;
      extents = s.extents.items;
    } };
}

impl Settings {
    ghost use Rattle.script.specs.Grammar.{by_kind};

    /// Makes settings in which no line has said anything.
    pub fn new(alloc: Global) -> Settings
        ensures none { result ≡ by_kind [] }
        ensures fits { AreFitting result }
    {
        Settings {
            zones: Vec::new(alloc),
            last: DEFAULT_LAST,
            bad: Vec::new(alloc),
            regions: Vec::new(alloc),
            tables: None,
            hw_sig: 0,
            extents: Vec::new(alloc),
        }
    }

    /// Adds what one more setting says.
    pub fn add(&mut self, setting: Setting) -> Result<(), AllocError>
        requires setting { IsFittingSetting setting }
        requires fits { AreFitting self.old }
        ensures added { OnOk result (self.new ≡ with_setting setting self.old) }
        ensures still_fits { OnOk result (AreFitting self.new) }
    {
        match setting {
            Setting::Zone(start, count) => self.zones.push((start, count))?,
            Setting::Last(last) => self.last = last,
            Setting::Bad(slot) => self.bad.push(slot)?,
            Setting::Region(start, count, flags) => self.regions.push((start, count, flags))?,
            Setting::Tables(frames, slots) => self.tables = Some((frames, slots)),
            Setting::Signature(signature) => self.hw_sig = signature,
            Setting::Extent(start, length, block) => self.extents.push((start, length, block))?,
        }
        Ok(())
    }

    /// Returns the hardware that the settings describe, if they describe one.
    pub fn hardware(&self) -> Option<Hardware>
        requires fits { AreFitting self.now }
        ensures hardware { IfSome result (λ hardware. hardware ≡ hardware_by self.now) }
        ensures none { IsNone result ↔ (is_faulty self.now ≡ true) }
    {
        if self.bad.len() > MOST_BADPAGES {
            return None;
        }
        if has_above(self.bad.as_slice(), self.last) {
            return None;
        }
        let zones = self.zones();
        let (frame_table, slot_table) = self.tables();
        Hardware::of(&Parts {
            zones,
            slots: self.last + 1,
            frame_table,
            slot_table,
            regions: self.regions.as_slice(),
            ident: scripted_ident(),
            hw_sig: self.hw_sig,
            extents: or_default(self.extents.as_slice(), &[(0, self.last + 1, 0)]),
        })
        .ok()
    }

    fn zones(&self) -> &[(u32, u32)]
        requires fits { AreFitting self.now }
        ensures zones { result.now ≡ zones_by self.now }
        ensures some { 1 ≤ length result.now }
        ensures lines { All IsZoneLine result.now }
    {
        or_default(self.zones.as_slice(), &DEFAULT_ZONES)
    }

    /// Returns the first page frames of the frame table and of the slot table.
    fn tables(&self) -> (u32, u32)
        requires fits { AreFitting self.now }
        ensures { result ≡ tables_by self.now }
    {
        match self.tables {
            Some(tables) => tables,
            None => tables_in(self.zones()),
        }
    }

    /// Returns the last page of the swap area.
    pub fn last(&self) -> u32
        ensures { result ≡ self.now.last }
    {
        self.last
    }

    /// Returns the slots that can't be used.
    pub fn into_bad(self) -> Vec<u32>
        ensures { result.items ≡ self.bad }
    {
        self.bad
    }
}

/// Returns whether a slot is above the last one.
fn has_above(slots: &[u32], last: u32) -> bool
    ensures { result ≡ list_any (nat_lt last) slots.now }
{
    slots.iter().any(|slot| *slot > last)
}

/// Returns what is given, or else the default.
fn or_default<'a, T>(given: &'a [T], default: &'a [T]) -> &'a [T]
    ensures { result.now ≡ or_default given.now default.now }
{
    if given.is_empty() { default } else { given }
}

/// Places the frame table in the lowest page frames, and the slot table after it.
fn tables_in(zones: &[(u32, u32)]) -> (u32, u32)
    requires some { 1 ≤ length zones.now }
    requires lines { All IsZoneLine zones.now }
    ensures { result ≡ tables_in zones.now }
{
    let (lowest, _) = zones[0];
    let (start, count) = zones[zones.len() - 1];
    let top = start + count;
    (lowest, lowest + top.div_ceil(ENTRIES_PER_FRAME))
}
