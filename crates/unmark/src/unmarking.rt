ghost use Rattle.std.specs.Prelude.{◌≡◌, ◌<◌};
ghost use Rattle.definitions.specs.SwapHeader.{unmarked_block};
ghost use Rattle.sector_disk.specs.Called.{Called, OneCall};

use page_core::{Failed, Page};
use sector_disk::Disk;

/// A call of an unmarking.
#[derive(Clone, Copy)]
pub enum UnmarkCall {
    /// The read of the header block.
    Read,
    /// The write of the header block with its mark taken back.
    Write,
    /// The sync of the block that was written.
    Sync,
}

/// What a call of an unmarking came to.
#[derive(Clone, Copy)]
pub enum UnmarkStep {
    /// The header block was read. The write is next.
    Read,
    /// The header block was written without a mark, which a power cut may still bring back. The sync is next.
    Written,
    /// The write was synced: no image exists. No call is left.
    Synced,
    /// The read failed. The disk is as it was.
    ReadFault,
    /// The write failed. Each sector of the header block is as it was or as it was to be written.
    WriteFault,
    /// The sync failed. A power cut may still bring the mark back.
    SyncFault,
}

/// A header block whose mark is being taken back. A call that failed can be made again.
#[derive(Drop)]
pub struct Unmark {
    /// The header block as it was read; before that any page.
    header: Page,
    next: UnmarkCall,
}

impl Unmark {
    ghost use Rattle.unmark.specs.declared.unmarking.UnmarkCall.TheVariants as call;
    ghost use Rattle.unmark.specs.Unmarking.{HasUnmarked, IsFault, from_write};

    /// Begins with the read of the header block.
    pub fn begin() -> Unmark
        ensures { result.next ≡ call.Read }
    {
        Unmark {
            header: Page::zero(),
            next: UnmarkCall::Read,
        }
    }

    /// Begins with the write of a header block that was read already.
    pub fn of(header: Page) -> Unmark
        ensures { result ≡ from_write header }
    {
        Unmark {
            header,
            next: UnmarkCall::Write,
        }
    }

    /// Returns the header block as it was read.
    pub fn into_header(self) -> Page
        ensures { result ≡ self.header }
    {
        self.header
    }

    /// Makes the next call. The header block is block `block`.
    pub fn step<D: Disk>(&mut self, block: u32, disk: &mut D) -> UnmarkStep
        requires { block < D.block_count disk.old }
        ensures unmarked { HasUnmarked block self.old self.new result (D.content disk.old) (D.content disk.new) }
        ensures called { Called D.Disk OneCall (IsFault result) disk.old disk.new }
    {
        self.header.is_page();
        match self.next {
            UnmarkCall::Read => match disk.read(block, &mut self.header) {
                Ok(()) => {
                    self.next = UnmarkCall::Write;
                    UnmarkStep::Read
                }
                Err(Failed) => UnmarkStep::ReadFault,
            },
            UnmarkCall::Write => match disk.write(block, &unmarked(&self.header)) {
                Ok(()) => {
                    self.next = UnmarkCall::Sync;
                    UnmarkStep::Written
                }
                Err(Failed) => UnmarkStep::WriteFault,
            },
            UnmarkCall::Sync => match disk.sync() {
                Ok(()) => UnmarkStep::Synced,
                Err(Failed) => UnmarkStep::SyncFault,
            },
        }
    }
}

/// Returns a header block with its mark taken back, or as it is if it carries none.
fn unmarked(header: &Page) -> Page
    ensures { result ≡ unmarked_block header.now }
{
    let mut block = Page::from_bytes(header.as_bytes());
    image_format::unmark(&mut block);
    block
}
