// The walk over the pieces under a step budget.
#![tactic(auto)]

pub mod walk;
