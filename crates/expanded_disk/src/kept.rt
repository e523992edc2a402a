use crate::units::Unit;

/// A unit that is kept, and its number once it has one.
#[derive(Drop)]
pub(crate) struct Kept {
    pub unit: Unit,
    pub number: Option<u64>,
}
