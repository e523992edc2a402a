ghost use Rattle.std.specs.Prelude.{◌≡◌, ◌<◌, ◌≤◌, IfSome, OnOk, OnErr};
ghost use Rattle.definitions.specs.Disk.{IsContent, as_it_reads, block, raised, HasRisen};
ghost use Rattle.overlay_disk.specs.DiskState.{DiskState, IsSame};

use page_core::{Failed, Page};
use sector_disk::Disk;

/// A disk that is only read from.
pub trait ReadOnly {
    /// The state of the disk at a moment.
    ghost state: { Self → DiskState };

    /// Returns how many blocks the disk has.
    fn blocks(&self) -> u32
        ensures { result ≡ (state self.now).blocks };

    /// Reads a block. After a failure `into` may hold any bytes.
    fn read(&mut self, b: u32, into: &mut Page) -> Result<(), Failed>
        requires { b < (state self.old).blocks }
        ensures bytes { OnOk result (IfSome (state self.old).content (λ held. into.new ≡ block (as_it_reads held) b)) }
        ensures same { IsSame (state self.old) (state self.new) }
        ensures cause { OnErr result (HasRisen (state self.old).faults (state self.new).faults) }
        ensures faults { (state self.old).faults ≤ (state self.new).faults }
        ensures calls { (state self.new).calls ≡ raised (state self.old).calls };

    /// If a disk tells its content, each sector of its blocks has candidates, and a live one among them.
    ghost well_formed: { (b : Self) → IfSome (state b).content (IsContent (state b).blocks) };
}

/// A disk that is borrowed for reading.
#[derive(Drop)]
pub struct Lent<'a, D> {
    pub disk: &'a mut D,
}

impl<'a, D: Disk> ReadOnly for Lent<'a, D> {
    ghost state = { λ l. record {
      which = l.disk.ghost_name;
      blocks = D.block_count l.disk.now;
      content = D.content l.disk.now;
      faults = D.faults l.disk.now;
      calls = D.calls l.disk.now;
      orders = D.orders l.disk.now;
    } };

    ghost well_formed = { λ l. D.well_formed l.disk.now };

    fn blocks(&self) -> u32 {
        self.disk.blocks()
    }

    fn read(&mut self, b: u32, into: &mut Page) -> Result<(), Failed> {
        self.disk.read(b, into)
    }
}
