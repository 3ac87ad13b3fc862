// The run service: the walk of an accepted job under a margin and a step budget, from a given layout or from none.
#![tactic(auto)]

pub mod given;
pub mod run;
