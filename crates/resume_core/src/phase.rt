/// Whether a resume has a step to make, and what the machine does if it has none.
#[derive(Clone, Copy, Debug, PartialEq, Eq)]
pub enum Phase {
    /// The resume has a step to make.
    UnderWay,
    /// No step is left: the image was resumed, and the machine runs.
    Runs,
    /// No step is left: the machine is off.
    Off,
}
