//! Laws, as lemmas: those of the runs of the plain machine, and what follows from the theorem of `swsusp`, one for each
//! promise that a reader may look for.
#![tactic(auto)]
