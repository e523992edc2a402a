ghost use Rattle.std.specs.Prelude.{◌≡◌, ◌≤◌, length, List, ℕ};
ghost use Rattle.machine.specs.KeptRegions.{kept_regions, AreKeptRegions, kept_as, kept_as-kept_regions};

use std::marker::Model;

/// The most regions that a machine may have.
pub(crate) const MOST_REGIONS: usize = 64;

/// The runs of page frames that fresh memory gives flags. Contracts see it as a list: the first number, the count and
/// the flags of each.
#[derive(Clone, Copy)]
pub(crate) struct Regions {
    regions: [(u32, u32, u32); MOST_REGIONS],
    len: usize,
}

impl Model for Regions {
    ghost Value = { List (ℕ × ℕ × ℕ) };

    ghost view = { kept_regions };

    ghost invariant = { AreKeptRegions };

    ghost inverse = { kept_as };

    ghost inverse_ok = { kept_as-kept_regions };
}

impl Regions {
    /// Keeps these regions, of which there must be few enough.
    pub(crate) fn of(regions: &[(u32, u32, u32)]) -> Regions
        requires { length regions.now ≤ 64 }
        ensures { result ≡ regions.now }
    {
        let mut kept = [(0, 0, 0); MOST_REGIONS];
        kept[..regions.len()].copy_from_slice(regions);
        Regions {
            regions: kept,
            len: regions.len(),
        }
    }

    pub(crate) fn as_slice(&self) -> &[(u32, u32, u32)]
        ensures { result.now ≡ self.now }
    {
        &self.regions[..self.len]
    }
}
