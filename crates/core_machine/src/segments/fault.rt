ghost use Rattle.std.specs.Prelude.{◌≡◌};

use page_core::{Failed, NoMemory};
use thiserror::Error;

/// Why a core file is refused.
#[derive(Clone, Copy, Debug, Error)]
pub enum Fault {
    /// The file has `at` bytes, and more are wanted.
    #[error("core file ends at byte {at}")]
    Short { at: u64 },
    /// The file doesn't begin with ELFMAG.
    #[error("no ELF file")]
    Magic,
    /// `EI_CLASS`, which isn't ELFCLASS64.
    #[error("ELF class {class}")]
    Class { class: u8 },
    /// `EI_DATA`, which isn't ELFDATA2LSB.
    #[error("ELF byte order {order}")]
    Order { order: u8 },
    /// `EI_VERSION` or `e_version`, which isn't EV_CURRENT.
    #[error("ELF version {version}")]
    Version { version: u32 },
    /// `e_type`, which isn't ET_CORE.
    #[error("ELF type {kind}")]
    Type { kind: u16 },
    /// `e_phentsize`, which isn't 56.
    #[error("program headers of {size} bytes")]
    EntrySize { size: u16 },
    /// `e_phnum`, which is 0 or PN_XNUM.
    #[error("program headers {count}")]
    Entries { count: u16 },
    /// `e_phoff`, which lies in the file header, or beyond 2^48.
    #[error("program headers at byte {place}")]
    Table { place: u64 },
    /// No program header is PT_LOAD.
    #[error("no segment")]
    NoSegment,
    /// A segment has more bytes in the file than in memory.
    #[error("segment at address {address}: more bytes in the file than in memory")]
    Sizes { address: u64 },
    /// A segment ends beyond the last address.
    #[error("segment at address {address}: ends beyond 2^64")]
    Wraps { address: u64 },
    /// The last address of a segment, which isn't one of the first 65,536 page frames.
    #[error("limit page frames 65536: address {address}")]
    Limit { address: u64 },
    /// A segment shares a page frame with the one before it, or lies below it.
    #[error("segment at address {address}: not above the one before")]
    Overlap { address: u64 },
    /// The bytes of a segment begin before the end of those of the segment before.
    #[error("segment at address {address}: its bytes lie before others")]
    Place { address: u64 },
    /// `p_offset` is beyond 2^48.
    #[error("segment at byte {place}")]
    Far { place: u64 },
}

/// Why nothing was read.
#[derive(Clone, Copy, Debug, Error)]
pub enum Stop {
    #[error("{0}")]
    Fault(Fault),
    #[error("the source failed")]
    Source,
    #[error("no memory")]
    Memory,
}

impl From<Fault> for Stop {
    ghost use Rattle.std.specs.Prelude.{◌≡◌};
    ghost use Rattle.core_machine.specs.declared.segments.fault.Stop.TheVariants as stop;

    ghost from_gives = { λ fault why. why ≡ stop.Fault fault };

    fn from(fault: Fault) -> Stop {
        Stop::Fault(fault)
    }
}

impl From<Failed> for Stop {
    ghost use Rattle.std.specs.Prelude.{◌≡◌};
    ghost use Rattle.core_machine.specs.declared.segments.fault.Stop.TheVariants as stop;

    ghost from_gives = { λ _ why. why ≡ stop.Source };

    fn from(_: Failed) -> Stop {
        Stop::Source
    }
}

impl From<NoMemory> for Stop {
    ghost use Rattle.std.specs.Prelude.{◌≡◌};
    ghost use Rattle.core_machine.specs.declared.segments.fault.Stop.TheVariants as stop;

    ghost from_gives = { λ _ why. why ≡ stop.Memory };

    fn from(_: NoMemory) -> Stop {
        Stop::Memory
    }
}
