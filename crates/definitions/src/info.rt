use thiserror::Error;

/// What an image is tied to: the kernel's version code and the names of `struct new_utsname`
/// (include/uapi/linux/utsname.h), in the order of the info page: sysname, nodename, release, version, machine,
/// domainname.
#[derive(Clone, Copy, Debug, PartialEq, Eq)]
pub struct Ident {
    /// LINUX_VERSION_CODE.
    pub version_code: u32,
    /// Six names, each padded with zero bytes.
    pub names: [[u8; 65]; 6],
}

/// The first page of an image (`struct swsusp_info`, kernel/power/power.h).
#[derive(Clone, Copy, Debug, PartialEq, Eq)]
pub struct Info {
    pub ident: Ident,
    /// The number of page frames that the machine has (`num_physpages`).
    pub physpages: u64,
    /// The number of page frames that were saved (`image_pages`).
    pub image_pages: u64,
    /// The number of pages in the stream, this one included (`pages`).
    pub pages: u64,
}

/// A field of the identity in which an image and the machine are compared.
#[derive(Clone, Copy, Debug, PartialEq, Eq, Error)]
pub enum Field {
    #[error("version code")]
    VersionCode,
    #[error("sysname")]
    Sysname,
    #[error("release")]
    Release,
    #[error("version")]
    Version,
    #[error("machine")]
    Machine,
}
