//! Tests of the crates that keep memory, page frames and sets of them and the tables in page frames; and of the lines
//! that say which devices are in use.
#![tactic(auto)]

#[cfg(test)]
mod devices_in_use;
#[cfg(test)]
mod frames;
#[cfg(test)]
mod tables;
