// Layouts that are handed in: which of them pass, and how long they are.
#![tactic(auto)]

mod admission;
mod clearance;
mod demands;
mod extents;
mod handed;
mod ordering;
pub mod passing;
