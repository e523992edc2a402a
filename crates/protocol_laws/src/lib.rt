//! Laws of hibernating and resuming over any disk, as lemmas: from a state that a world and a disk stand for, each call
//! of the disk, failed or not, leads to the state of the plain machine after it.
#![tactic(auto)]
