// What a run computes of an accepted job once, before its first step, what it looks up there, and how it writes a
// layout by that.
#![tactic(auto)]

pub mod lookup;
pub mod plan;
pub mod recording;
