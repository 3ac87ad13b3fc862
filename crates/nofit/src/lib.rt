// No-fit patterns: which offsets from a placed piece are blocked for another, as strings of bits that a run fills once
// and then reads a word at a time.
#![tactic(auto)]

pub mod measures;
pub mod patterns;
pub mod places;
