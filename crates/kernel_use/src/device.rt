/// The number of a block device.
#[derive(Clone, Copy, PartialEq, Eq, Debug)]
pub struct Device {
    pub major: u32,
    pub minor: u32,
}

impl Device {
    /// Returns the device of an inode, from Linux' 64-bit encoding (`new_encode_dev`, include/linux/kdev_t.h, and
    /// glibc's `makedev`).
    pub fn of(number: u64) -> Device {
        Device {
            major: ((number >> 8) & 0xfff) as u32 | ((number >> 32) & 0xffff_f000) as u32,
            minor: (number & 0xff) as u32 | ((number >> 12) & 0xffff_ff00) as u32,
        }
    }

    /// Parses `MAJOR:MINOR`.
    pub fn parse(text: &str) -> Option<Device> {
        let (major, minor) = text.trim().split_once(':')?;
        Some(Device {
            major: major.parse().ok()?,
            minor: minor.parse().ok()?,
        })
    }
}
