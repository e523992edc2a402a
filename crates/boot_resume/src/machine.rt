ghost use Rattle.std.specs.Prelude.{◌≡◌, ◌<◌, ◌≤◌, ◌^◌};
ghost use Rattle.boot_resume.specs.Facts.{Facts, compared_by, facts};

use crate::cause::Cause;
use crate::ranges::first_misplaced;
use definitions::Ident;
use std::marker::Model;
use thiserror::Error;

/// The page frames of memory from `start` up to, but not including, `end`.
#[repr(C)]
#[derive(Clone, Copy, Debug, PartialEq, Eq)]
pub struct FrameRange {
    pub start: u64,
    pub end: u64,
}

/// What an image must say of the kernel that made it.
#[derive(Clone, Copy)]
pub enum Identity<'a> {
    /// The version code and four of the six names, each up to its first zero byte (`check_image_kernel`,
    /// kernel/power/snapshot.c).
    Generic(&'a Ident),
    /// All 390 bytes at the beginning of the info page, if the architecture has its own header.
    Architecture(&'a [u8; 390]),
}

/// Why what a caller says of its machine is impossible.
#[derive(Clone, Copy, Debug, PartialEq, Eq, Error)]
pub enum MachineFault {
    /// A range is empty, or doesn't begin after the one before it.
    #[error("range {index} of memory")]
    Memory { index: usize },
    /// There are no page frames, or at least 2^52.
    #[error("{present} page frames")]
    Present { present: u64 },
    /// The header's block isn't one of the disk's.
    #[error("header block {header}")]
    Header { header: u64 },
}

/// The machine that an image is resumed into, and the place of the swap area, as the caller lends them. A contract sees
/// only their values, not where they lie: two machines with the same ranges and numbers are equal.
#[derive(Drop)]
pub struct Machine<'a> {
    memory: &'a [FrameRange],
    present: u64,
    identity: Option<Identity<'a>>,
    hardware_signature: u32,
    blocks: u64,
    header: u64,
}

impl<'a> Model for Machine<'a> {
    ghost Value = { Facts };

    ghost view = { λ m.
        facts m.memory.now m.present (compared_by m.identity) m.hardware_signature m.blocks m.header };

    ghost invariant = { λ m. m.present < 2 ^ 52 };
}

impl<'a> Machine<'a> {
    ghost use Rattle.std.specs.Prelude.{◌≡◌, ◌<◌, ◌≤◌, ◌^◌, ◌↔◌, IsOk, IfErr, IfOk, IsTrue};
    ghost use Rattle.boot_resume.specs.Facts.{compared_by, facts};
    ghost use Rattle.boot_resume.specs.Ranges.{IsMachineFault};
    ghost use Rattle.boot_resume.specs.Memory.{AreApart, block_fault, is_memory, Names};

    /// Returns a machine. `memory` has the ranges of page frames that are memory, in ascending order and apart from
    /// each other; `present` is the number of page frames that the kernel counts (`num_physpages`), which may be fewer
    /// or more than the ranges have. An image that carries a hardware signature must carry this one. The disk has
    /// `blocks` blocks of 4096 bytes, and the area's header lies in block `header`.
    pub fn new(
        memory: &'a [FrameRange],
        present: u64,
        identity: Option<Identity<'a>>,
        hardware_signature: u32,
        blocks: u64,
        header: u64,
    ) -> Result<Machine<'a>, MachineFault>
        ensures ok { IsOk result ↔ (AreApart memory.now × (0 < present) × (present < 2 ^ 52) × (header < blocks)) }
        ensures fault { IfErr result (IsMachineFault memory.now present blocks header) }
        ensures machine { IfOk result (λ m. m ≡
            facts memory.now present (compared_by identity.entry) hardware_signature blocks header) }
    {
        if let Some(index) = first_misplaced(memory) {
            return Err(MachineFault::Memory { index });
        }
        if present == 0 || present >= 1 << 52 {
            return Err(MachineFault::Present { present });
        }
        if header >= blocks {
            return Err(MachineFault::Header { header });
        }
        Ok(Machine {
            memory,
            present,
            identity,
            hardware_signature,
            blocks,
            header,
        })
    }

    pub(crate) fn present(&self) -> u64
        ensures present { result ≡ self.now.present }
        ensures few { result < 2 ^ 52 }
    {
        self.present
    }

    pub(crate) fn identity(&self) -> Option<Identity<'a>>
        ensures { compared_by result ≡ self.now.identity }
    {
        self.identity
    }

    pub(crate) fn hardware_signature(&self) -> u32
        ensures { result ≡ self.now.hardware_signature }
    {
        self.hardware_signature
    }

    pub(crate) fn header(&self) -> u64
        ensures { result ≡ self.now.header }
    {
        self.header
    }

    /// Returns whether a page frame is memory.
    pub(crate) fn is_memory(&self, frame: u64) -> bool
        ensures { result ≡ is_memory self.now.memory frame }
    {
        self.memory
            .iter()
            .any(|range| range.start <= frame && frame < range.end)
    }

    /// Returns a block that an image names, if the image may name it. `last` is the area's last page.
    pub(crate) fn checked(&self, last: u32, block: u64) -> Result<u64, Cause>
        ensures { Names (block_fault self.now last block) block result }
    {
        let beyond = block >= self.blocks || self.header == 0 && block > u64::from(last);
        if block == 0 || block == self.header || beyond {
            return Err(Cause::BadBlock { block });
        }
        Ok(block)
    }
}
