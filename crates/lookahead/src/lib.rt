// Look-ahead: the live sets of a level of the walk, and whether each kind has members for its copies.
#![tactic(auto)]

pub mod settling;
