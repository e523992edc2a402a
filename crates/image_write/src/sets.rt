use frame_sets::Bitmap;

/// The sets of an image's page frames, borrowed from the caller.
#[derive(Drop)]
pub struct Sets<'a> {
    /// The page frames that the image has.
    pub origs: &'a Bitmap,
    /// The page frames that hold the copies, one for each original.
    pub copies: &'a Bitmap,
    /// The originals whose page is all zero, if these are left out.
    pub zeros: Option<&'a Bitmap>,
}
