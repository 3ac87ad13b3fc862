// The test of a pair of parts, by their corners alone, and of a pair of pieces, part by part.
#![tactic(auto)]

pub mod pairs;
pub mod pieces;
