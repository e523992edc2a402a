//! Tests of a resume whose calls its caller makes, over a disk in memory: broken off at each call, and with each call
//! failing.
#![tactic(auto)]

#[cfg(test)]
mod booting;
