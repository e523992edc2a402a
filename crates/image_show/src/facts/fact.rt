use byte_streams::Name;
use image_format::AreaFault;

/// The beginning of an info page.
#[derive(Clone, Copy, Debug, PartialEq, Eq)]
pub enum Header {
    /// The version code and the names (`init_header_complete`, kernel/power/snapshot.c).
    Generic,
    /// `struct restore_data_record` (arch/x86/power/hibernate.c).
    X86,
    /// `struct arch_hibernate_hdr` (arch/arm64/kernel/hibernate.c).
    Arm64,
    Unknown,
}

/// A flag of an image (kernel/power/power.h), in the order of their bits.
#[derive(Clone, Copy, Debug, PartialEq, Eq)]
pub enum Flag {
    /// SF_PLATFORM_MODE, 1.
    PlatformMode,
    /// SF_NOCOMPRESS_MODE, 2.
    NoCompress,
    /// SF_CRC32_MODE, 4.
    Crc32,
    /// SF_HW_SIG, 8.
    HwSig,
    /// Pages of zeros have no data page, 256 (this project's own).
    ZerosSkipped,
}

/// What one line says of an area and its image.
#[derive(Clone, Copy)]
pub enum Fact {
    /// The number of blocks of the file or device.
    Blocks(u32),
    /// The file or the device has no header block.
    HeaderMissing,
    /// The header block couldn't be read.
    HeaderUnread,
    /// Whether the header block is marked.
    Image(bool),
    /// A version 1 area.
    AreaSwap,
    /// A version 0 area.
    AreaOld,
    /// `orig_sig` is the signature of an image.
    AreaImage,
    /// A signature that isn't a swap area's.
    AreaOther([u8; 10]),
    AreaBad(AreaFault),
    /// The last slot (`last_page`).
    LastPage(u32),
    /// The number of bad pages (`nr_badpages`), and each of them (`badpages`).
    BadPages(u32),
    BadPage(u32),
    /// `sws_uuid`.
    Uuid([u8; 16]),
    /// `sws_volume`.
    Label([u8; 16]),
    /// The block of the first map (`image`).
    FirstMap(u64),
    Flags(u32),
    Flag(Flag),
    /// The hardware signature that the image was made under (`hw_sig`).
    HwSig(u32),
    Crc32(u32),
    Header(Header),
    Name(Name, [u8; 65]),
    /// LINUX_VERSION_CODE, and the three numbers in it.
    VersionCode(u32),
    Kernel(u32, u32, u32),
    /// Where the restored kernel continues, its physical address, and its page tables.
    JumpAddress(u64),
    JumpAddressPhysical(u64),
    Cr3(u64),
    /// `e820_checksum`.
    MemoryMapChecksum(u64),
    /// `uts_version`.
    KernelVersion([u8; 65]),
    /// The number of page frames of the machine (`num_physpages`).
    MemoryPages(u64),
    /// The number of page frames that were saved (`image_pages`).
    ImagePages(u64),
    /// The number of pages of the image, including the info page (`pages`).
    StreamPages(u64),
    /// Consecutive blocks that the image names: the first one, and their number.
    BlockRun(u64, u64),
    /// The number of maps that were read.
    Maps(u64),
    /// The number of units of a compressed image, the number of bytes of the pages that they take, and of those that
    /// they expand to.
    Units(u64),
    CompressedBytes(u64),
    ExpandedBytes(u64),
    /// Consecutive page frames: the first one, and their number.
    FrameRun(u64, u64),
}

impl Default for Fact {
    /// Returns the value in the unused places of a list of facts.
    fn default() -> Fact {
        Fact::HeaderMissing
    }
}
