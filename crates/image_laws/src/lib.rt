//! Laws of the definitions that the engine's theorems rest on, as lemmas.
#![tactic(auto)]
