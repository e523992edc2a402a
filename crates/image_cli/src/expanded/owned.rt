use expanded_disk::Walks;
use image_walk::{Visit, Walker};
use overlay_disk::ReadOnly;
use page_core::{Failed, Page};
use sector_disk::Disk;

/// A disk that is only read, and given back.
#[derive(Drop)]
pub(crate) struct Owned<D> {
    pub disk: D,
}

impl<D: Disk> ReadOnly for Owned<D> {
    ghost state = { λ o. record {
      which = 0;
      blocks = D.block_count o.disk;
      content = D.content o.disk;
      faults = D.faults o.disk;
      calls = D.calls o.disk;
      orders = D.orders o.disk;
    } };

    ghost well_formed = { λ o. D.well_formed o.disk };

    fn blocks(&self) -> u32 {
        self.disk.blocks()
    }

    fn read(&mut self, b: u32, into: &mut Page) -> Result<(), Failed> {
        self.disk.read(b, into)
    }
}

impl<D: Disk> Walks for Owned<D> {
    fn step(&mut self, walker: &mut Walker, page: &mut Page) -> Option<Visit> {
        walker.step(&mut self.disk, page)
    }
}
