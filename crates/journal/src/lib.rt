//! What holds of every run of a writer and of what a reader finds of it, as contracts. Nothing here does anything.
#![tactic(auto)]

pub mod laws;
