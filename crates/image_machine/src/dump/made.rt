use crate::{Heading, Layout, Limit};
use machine::Dump;

/// A requested machine: what its image says of it, and where its area lies.
#[derive(Clone, Copy)]
pub struct Asked<'a> {
    pub heading: Heading,
    pub layout: Layout<'a>,
}

/// What was made of an image.
#[derive(Drop)]
pub enum Made {
    /// The header block, if the disk has it, isn't marked.
    NoImage,
    /// The header block, or the first named block that has findings, was refused; the findings were reported.
    Refused,
    /// Without its mark, the header block isn't that of a version 1 area.
    NoArea,
    /// No such machine exists.
    Limit(Limit),
    Dump(Dump),
}
