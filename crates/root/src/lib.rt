// The root of the walk: what is computed once, the live sets of the first level, and the first piece.
#![tactic(auto)]

pub mod beginning;
pub mod walking;
