// Branching: the candidate that a piece takes next.
#![tactic(auto)]

pub mod choosing;
