ghost use Rattle.std.specs.Prelude.{◌≡◌, ℕ, ◌+◌, ◌^◌, ◌<◌, ◌≤◌, ◌↔◌, length, All, IsOk, IfOk, IfErr, Some, None};
ghost use Rattle.plain_machine.specs.Machine.{IsHardware, IsIdent, Hardware as PlainHardware};
ghost use Rattle.machine.specs.KeptHardware.{kept_hardware, IsKept, kept_as, kept_as-kept_hardware};

use crate::parts::{has_regions, has_slots, has_tables};
use crate::regions::Regions;
use definitions::Ident;
use frame_sets::Zones;
use std::marker::Model;
use swap_slots::FileMap;
use thiserror::Error;

/// What a machine is made of, before it is known to fit together.
#[derive(Clone, Copy)]
pub struct Parts<'a> {
    /// The runs of page frame numbers that the machine has: the first number and the count of each.
    pub zones: &'a [(u32, u32)],
    /// How many slots its swap area has, slot 0 among them.
    pub slots: u32,
    /// The first page frame of the frame table.
    pub frame_table: u32,
    /// The first page frame of the slot table.
    pub slot_table: u32,
    /// The runs of page frames that fresh memory gives flags: the first number, the count and the flags of each.
    pub regions: &'a [(u32, u32, u32)],
    /// What the machine's images are tied to.
    pub ident: Ident,
    /// The hardware signature, 0 if there is none.
    pub hw_sig: u32,
    /// Where the slots lie on the blocks of the disk: the first slot, the length and the first block of each extent.
    pub extents: &'a [(u32, u32, u32)],
}

/// Why parts make no hardware. The first fault in this order is reported.
#[derive(Clone, Copy, Debug, PartialEq, Eq, Error)]
pub enum HardFault {
    /// The pairs aren't zones, as `Zones::of` says.
    #[error("no zones")]
    Zones,
    /// The slots are fewer than 2 or more than 131,072.
    #[error("fewer than 2 slots or more than 131072")]
    Slots,
    /// A page frame of a table isn't valid, or the tables share one.
    #[error("a table lies outside the zones or on the other one")]
    Tables,
    /// There are more than 64 regions, one is empty, has odd flags or flags above 126, or has a page frame that isn't
    /// valid, is a table's or lies in another region.
    #[error("the regions are at fault")]
    Regions,
    /// The extents don't cover the slots, as `FileMap::of` says.
    #[error("the extents don't cover the slots")]
    Extents,
}

/// What a machine has and keeps: the page frames of its zones, the slots of its swap area and the blocks that they lie
/// on, where the two tables begin, the regions with flags of their own, and what its images are tied to.
#[derive(Clone, Copy)]
pub struct Hardware {
    zones: Zones,
    slots: u32,
    frame_table: u32,
    slot_table: u32,
    regions: Regions,
    ident: Ident,
    hw_sig: u32,
    extents: FileMap,
}

impl Model for Hardware {
    ghost Value = { PlainHardware };

    ghost view = { kept_hardware };

    ghost invariant = { IsKept };

    ghost inverse = { kept_as };

    ghost inverse_ok = { kept_as-kept_hardware };
}

impl Hardware {
    ghost use Rattle.machine.specs.HardFault.{hardware_of, hard_fault};

    /// Makes the hardware of these parts, if they fit together.
    pub fn of(parts: &Parts) -> Result<Hardware, HardFault>
        ensures ok { IsOk result ↔ (hard_fault (hardware_of parts.now) ≡ None) }
        ensures hardware { IfOk result (λ hw. hw ≡ hardware_of parts.now) }
        ensures is { IsOk result → IsHardware (hardware_of parts.now) }
        ensures refused { IfErr result (λ fault. hard_fault (hardware_of parts.now) ≡ Some fault) }
    {
        let Ok(zones) = Zones::of(parts.zones) else {
            return Err(HardFault::Zones);
        };
        if !has_slots(parts) {
            return Err(HardFault::Slots);
        }
        if !has_tables(parts, &zones) {
            return Err(HardFault::Tables);
        }
        if !has_regions(parts, &zones) {
            return Err(HardFault::Regions);
        }
        let Ok(extents) = FileMap::of(parts.extents, parts.slots) else {
            return Err(HardFault::Extents);
        };
        // The signature is read into a variable so that it is known to have 32 bits.
        let hw_sig = parts.hw_sig;
        Ok(Hardware {
            zones,
            slots: parts.slots,
            frame_table: parts.frame_table,
            slot_table: parts.slot_table,
            regions: Regions::of(parts.regions),
            ident: *of_its_type(&parts.ident),
            hw_sig,
            extents,
        })
    }

    pub fn zones(&self) -> &Zones
        ensures zones { result.now ≡ self.now.zones }
        ensures hardware { IsHardware self.now }
    {
        &self.zones
    }

    /// Tells the prover what holds of every hardware, which it knows only of one that is read.
    pub fn is_hardware(&self)
        ensures hardware { IsHardware self.now }
    {
        let _zones = &self.zones;
    }

    /// Returns how many slots there are: one more than the number of the area's last one.
    pub fn slots(&self) -> u32
        ensures { result ≡ self.now.slots }
    {
        self.slots
    }

    /// Returns the first page frame of the frame table.
    pub fn frame_table(&self) -> u32
        ensures frame { result ≡ self.now.frame_table }
        ensures hardware { IsHardware self.now }
    {
        self.frame_table
    }

    /// Returns the first page frame of the slot table.
    pub fn slot_table(&self) -> u32
        ensures frame { result ≡ self.now.slot_table }
        ensures hardware { IsHardware self.now }
    {
        self.slot_table
    }

    /// Returns the page frames that fresh memory gives flags: the first number, the count and the flags of each region.
    pub fn regions(&self) -> &[(u32, u32, u32)]
        ensures regions { result.now ≡ self.now.regions }
        ensures hardware { IsHardware self.now }
    {
        self.regions.as_slice()
    }

    /// Returns what the machine's images are tied to, as an info page can hold it.
    pub fn ident(&self) -> &Ident
        ensures ident { result.now ≡ self.now.ident }
        ensures code { self.now.ident.version_code < 2 ^ 32 }
        ensures names { length self.now.ident.names ≡ 6 }
        ensures each_name { All (λ name. length name ≡ 65) self.now.ident.names }
    {
        of_its_type(&self.ident)
    }

    /// Returns the hardware signature, 0 if there is none.
    pub fn hw_sig(&self) -> u32
        ensures { result ≡ self.now.hw_sig }
    {
        self.hw_sig
    }

    pub fn extents(&self) -> &FileMap
        ensures extents { result.now ≡ self.now.extents }
        ensures hardware { IsHardware self.now }
    {
        &self.extents
    }
}

/// Returns an identity, which by its type fits an info page.
fn of_its_type(ident: &Ident) -> &Ident
    ensures same { result.now ≡ ident.now }
    ensures ident { IsIdent ident.now }
{
    // Only a value that is read is known to have the size of its type.
    let _code = ident.version_code;
    let _names = whole(&ident.names);
    ident
}

/// Returns the names of an identity. By their type each has 65 bytes.
fn whole(names: &[[u8; 65]]) -> &[[u8; 65]]
    ensures names { result.now ≡ names.now }
    ensures each { All (λ name. length name ≡ 65) names.now }
{
    names
}
