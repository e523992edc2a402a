/// Whether an operation has a step to make, and if it has none, what the machine is then.
#[derive(Clone, Copy, Debug, PartialEq, Eq)]
pub enum Phase {
    /// The operation has a step to make.
    UnderWay,
    /// No step: the machine runs.
    Runs,
    /// No step: the machine is off.
    Off,
    /// No step: the machine sleeps, with its memory kept.
    Asleep,
}
