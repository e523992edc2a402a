use definitions::Ident;
use image_format::Area;

/// What an image and its swap area say of the machine that was saved.
#[derive(Clone, Copy)]
pub struct Heading {
    /// The kernel and machine that the image is tied to.
    pub ident: Ident,
    /// How many page frames the machine had.
    pub physpages: u64,
    /// The area as it is without the image's mark.
    pub area: Area,
    /// The hardware signature that the image was made under, or 0 if there is none.
    pub hw_sig: u32,
}

/// What an image doesn't say of its machine.
#[derive(Clone, Copy)]
pub struct Layout<'a> {
    /// The first page frame and the count of each zone. Without any, one zone begins at page frame 0.
    pub zones: &'a [(u32, u32)],
    /// Where the slots lie on the blocks of the disk: the first slot, the length and the first block of each extent.
    /// Without any, one extent begins at block 0.
    pub extents: &'a [(u32, u32, u32)],
    /// The block of the area's header.
    pub offset: u32,
}
