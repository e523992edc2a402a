use crate::progress::meter::Meter;
use page_core::{Failed, Page};
use sector_disk::Disk;

/// A disk whose reads and writes are counted by a meter. Otherwise it is the disk below.
#[derive(Drop)]
pub struct ProgressDisk<'a, D> {
    pub disk: D,
    pub meter: Meter<'a>,
}

impl<'a, D: Disk> Disk for ProgressDisk<'a, D> {
    ghost block_count = { λ p. D.block_count p.disk };

    ghost faults = { λ p. D.faults p.disk };

    ghost calls = { λ p. D.calls p.disk };

    ghost orders = { λ p. D.orders p.disk };

    ghost content = { λ p. D.content p.disk };

    ghost tells_moments = { λ p. D.tells_moments p.disk };

    ghost moment = { λ p. D.moment p.disk };

    ghost left_since = { λ p t v. D.left_since p.disk t v };

    ghost well_formed = { λ p. D.well_formed p.disk };

    ghost tells_content = { λ p tells. D.tells_content p.disk tells };

    ghost counts_now = { λ p t v tells. D.counts_now p.disk t v tells };

    ghost only_now = { λ p v tells. D.only_now p.disk v tells };

    fn blocks(&self) -> u32 {
        self.disk.blocks()
    }

    fn read(&mut self, b: u32, into: &mut Page) -> Result<(), Failed> {
        self.meter.count();
        self.disk.read(b, into)
    }

    fn write(&mut self, b: u32, from: &Page) -> Result<(), Failed> {
        self.meter.count();
        self.disk.write(b, from)
    }

    fn sync(&mut self) -> Result<(), Failed> {
        self.disk.sync()
    }

    fn restart(&mut self, pick: u64) {
        self.disk.restart(pick);
    }

    fn arm(&mut self, first: u32, count: u32, pick: u64) {
        self.disk.arm(first, count, pick);
    }
}
