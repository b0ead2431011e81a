// internal: for the crates above alone
//! What stands where in an image of a segment, and what a whole reading of it finds. No state, and no order of refusals: any image, any place.
#![tactic(auto)]

pub mod laws;
pub mod marks;
pub mod walks;
