// The small numbers of a run: whether its buffers are large enough, how far its walk has come, and what it answers.
#![tactic(auto)]

pub mod progress;
pub mod room;
