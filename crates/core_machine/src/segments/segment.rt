ghost use Rattle.std.specs.Prelude.{◌≡◌, ◌≤◌, ◌<◌, ◌^◌};
ghost use Rattle.core_machine.specs.Segments.{address_end, first_frame, frame_end, lies_within};

/// A segment of memory (Elf64_Phdr).
#[derive(Clone, Copy, Debug, PartialEq, Eq)]
pub struct Segment {
    /// The offset of its bytes in the file (`p_offset`).
    pub offset: u64,
    /// Its first physical address (`p_paddr`).
    pub address: u64,
    /// How many bytes it has in the file (`p_filesz`) and in memory (`p_memsz`). Those that are only in memory are 0.
    pub file_size: u64,
    pub memory_size: u64,
}

impl Segment {
    ghost use Rattle.std.specs.Prelude.{◌≡◌, ◌≤◌, ◌<◌, ◌^◌};
    ghost use Rattle.core_machine.specs.Segments.{address_end, first_frame, frame_end, lies_within};

    /// Returns the first page frame that the segment has an address of.
    pub fn first_frame(&self) -> u32
        requires { self.now.address ≤ 2 ^ 28 }
        ensures frame { result ≡ first_frame self.now }
        ensures few { result ≤ 65536 }
    {
        (self.address / 4096) as u32
    }

    /// Returns the page frame after the last one that the segment has an address of.
    pub fn frame_end(&self) -> u32
        requires { address_end self.now ≤ 2 ^ 28 }
        ensures frame { result ≡ frame_end self.now }
        ensures few { result ≤ 65536 }
    {
        (self.address + self.memory_size).div_ceil(4096) as u32
    }

    /// Returns the end of its addresses.
    pub(crate) fn end(&self) -> u128
        ensures { result ≡ address_end self.now }
    {
        u128::from(self.address) + u128::from(self.memory_size)
    }

    /// Returns whether its addresses lie among those of `other`.
    pub(crate) fn lies_within(&self, other: &Segment) -> bool
        ensures { result ≡ lies_within self.now other.now }
    {
        other.address <= self.address && self.end() <= other.end()
    }
}
