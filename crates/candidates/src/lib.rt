// Candidates of an accepted job, and conflict of two placed pieces.
#![tactic(auto)]

pub mod conflicts;
pub mod placements;
pub mod prepared;
