//! Laws of the pages that a resume reads, and of the memory and the reply at its end, over any disk, as lemmas.
#![tactic(auto)]
