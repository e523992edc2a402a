/// A part of an image's identity: the version code, or one of the six names of `struct new_utsname`.
#[derive(Clone, Copy, Debug, PartialEq, Eq)]
pub enum Part {
    VersionCode,
    Sysname,
    Nodename,
    Release,
    Version,
    Machine,
    Domainname,
}

/// A difference between two images.
#[derive(Clone, Copy)]
pub enum Difference {
    /// The flags of their marks.
    Flags { first: u32, second: u32 },
    /// The hardware signatures of their marks, at least one of which counts.
    HardwareSignature { first: u32, second: u32 },
    Identity(Part),
    /// The number of page frames of their machines (`num_physpages`).
    MemorySize { first: u64, second: u64 },
    /// Only the first image saved this page frame.
    FirstAlone(u64),
    /// Only the second image saved this page frame.
    SecondAlone(u64),
    /// Both images saved this page frame, with different pages.
    Page(u64),
}
