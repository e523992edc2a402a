/// Whether a waking has a step to make, or what the machine is at after its last step.
#[derive(Clone, Copy, Debug, PartialEq, Eq)]
pub enum Phase {
    /// A step is left to make.
    UnderWay,
    /// The machine runs.
    Runs,
    /// The machine sleeps as before.
    Asleep,
}
