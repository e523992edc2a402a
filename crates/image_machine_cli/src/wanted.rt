/// The machine that is requested of an image.
#[derive(Clone, Copy)]
pub enum Wanted {
    /// A loader into which the image can be resumed.
    Loader,
    /// The machine that the image saved, with tables from these page frames on, or with new ones.
    Saved(Option<(u32, u32)>),
}
