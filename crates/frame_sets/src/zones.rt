//! The valid page frame numbers of a machine.

mod fault;

ghost use Rattle.std.specs.Prelude.{◌≡◌, ℕ, ◌+◌, ◌-◌, ◌<◌, ◌≤◌, ◌↔◌, IsTrue, IsOk, IfOk, IfErr, List, length};
ghost use Rattle.std.specs.Prelude.{slice_get};
ghost use Rattle.std.specs.List.{Contains};
ghost use Rattle.definitions.specs.Zones.{numbers, first_from, top, zone_end};
ghost use Rattle.definitions.specs.ZoneFacts.{IsZone, AreZones};
ghost use Rattle.frame_sets.specs.Faults.{HasFault};

pub use fault::ZoneFault;
use std::marker::Model;

/// The most zones that a machine may have.
const MOST_ZONES: usize = 16;

/// The bound of page frame numbers, which are all below it.
const NUMBER_LIMIT: u32 = 65536;

/// The zones of a machine: the runs of page frame numbers that it has, in ascending order (struct zone).
/// A contract sees the list of their pairs: the first number and the count of each.
#[derive(Clone, Copy)]
pub struct Zones {
    pairs: [(u32, u32); MOST_ZONES],
    len: usize,
}

impl Model for Zones {
    ghost use Rattle.std.specs.Prelude.{List, ℕ};

    ghost Value = { List (ℕ × ℕ) };

    ghost use Rattle.frame_sets.specs.KeptZones.{kept_zones, IsKept, kept_as, kept_as-kept_zones};

    ghost view = { kept_zones };

    ghost invariant = { IsKept };

    ghost inverse = { kept_as };

    ghost inverse_ok = { kept_as-kept_zones };
}

impl Zones {
    ghost use Rattle.frame_sets.specs.Faults.{Refuses};
    ghost use Rattle.frame_sets.specs.declared.zones.fault.ZoneFault.{ZoneFault};

    /// Makes the zones of a list of pairs: the first number and the count of each.
    pub fn of(pairs: &[(u32, u32)]) -> Result<Zones, ZoneFault>
        ensures ok { IsOk result ↔ AreZones pairs.now }
        ensures zones { IfOk result (λ z. z ≡ pairs.now) }
        ensures refused { (fault : ZoneFault) → (result ≡ Err fault) ↔ Refuses pairs.now fault }
    {
        if pairs.is_empty() {
            return Err(ZoneFault::NoZone);
        }
        if pairs.len() > MOST_ZONES {
            return Err(ZoneFault::TooMany);
        }
        let mut kept = [(0, 0); MOST_ZONES];
        let mut above = 0;
        for (at, pair) in pairs.iter().enumerate() {
            above = end_of(at as u32, *pair, above)?;
            kept[at] = *pair;
        }
        Ok(Zones {
            pairs: kept,
            len: pairs.len(),
        })
    }

    /// Returns whether the machine has a page frame with this number (pfn_valid).
    pub fn valid(&self, p: u32) -> bool
        ensures valid { IsTrue result ↔ Contains (numbers self.now) p }
        ensures zones { AreZones self.now }
    {
        self.pairs[..self.len]
            .iter()
            .any(|&(start, count)| start <= p && p - start < count)
    }

    /// Returns how many page frame numbers are valid.
    pub fn count(&self) -> u32
        ensures count { result ≡ length (numbers self.now) }
        ensures zones { AreZones self.now }
    {
        let mut total = 0;
        for &(_, count) in &self.pairs[..self.len] {
            total += count;
        }
        total
    }

    /// Returns one more than the highest valid page frame number.
    pub fn top(&self) -> u32
        ensures top { result ≡ top self.now }
        ensures zones { AreZones self.now }
    {
        let (start, count) = self.pairs[self.len - 1];
        start + count
    }

    /// Returns the least valid page frame number at or above `p`.
    pub fn next(&self, p: u32) -> Option<u32>
        ensures next { result ≡ first_from (numbers self.now) p }
        ensures zones { AreZones self.now }
    {
        for &(start, count) in &self.pairs[..self.len] {
            if p < start + count {
                return Some(p.max(start));
            }
        }
        None
    }

    /// Returns the first number and the count of zone `j`, from 0, or `None` if there are at most `j` zones.
    pub fn zone(&self, j: u32) -> Option<(u32, u32)>
        ensures zone { result ≡ slice_get self.now j }
        ensures zones { AreZones self.now }
    {
        self.as_slice().get(j as usize).copied()
    }

    /// Returns the pairs of the zones: the first number and the count of each.
    pub fn as_slice(&self) -> &[(u32, u32)]
        ensures pairs { result.now ≡ self.now }
        ensures zones { AreZones self.now }
    {
        &self.pairs[..self.len]
    }
}

/// Returns the page frame number after zone `at`, if that zone is in order. The zones before it end at `above`.
fn end_of(at: u32, zone: (u32, u32), above: u32) -> Result<u32, ZoneFault>
    ensures sound { IfOk result (λ end. IsZone zone × (above ≤ zone.0) × (end ≡ zone_end zone)) }
    ensures fault { IfErr result (HasFault at zone above) }
{
    let (start, count) = zone;
    if count == 0 {
        return Err(ZoneFault::Empty { at });
    }
    if count > NUMBER_LIMIT || start > NUMBER_LIMIT - count {
        return Err(ZoneFault::TooLarge { at });
    }
    if start < above {
        return Err(ZoneFault::Overlap { at });
    }
    Ok(start + count)
}
