// The frame of a job's bytes: its fields, the trailer, the sections that it points to, and the board. The causes 1 to 4 of refusal.
#![tactic(auto)]

pub mod board;
pub mod fields;
pub mod sections;
pub mod trailer;
