// Bounding: what a bound takes from the live sets, at the beginning and at a new best. (Of the job and its plan alone: at
// the beginning nothing else is fixed yet.)
#![tactic(auto)]

pub mod lowering;
pub mod shrinking;
pub mod trimming;
