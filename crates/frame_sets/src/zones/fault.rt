use thiserror::Error;

/// Why a list of pairs isn't a list of zones. `at` is the index of the first zone at fault.
#[derive(Clone, Copy, Debug, PartialEq, Eq, Error)]
pub enum ZoneFault {
    #[error("no zone")]
    NoZone,
    #[error("more than 16 zones")]
    TooMany,
    #[error("zone {at} is empty")]
    Empty { at: u32 },
    #[error("zone {at} passes page frame number 65535")]
    TooLarge { at: u32 },
    #[error("zone {at} does not lie above the one before")]
    Overlap { at: u32 },
}
