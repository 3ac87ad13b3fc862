// How near two parts are: distances of corners from edges, and what the line through their middles tells of them.
#![tactic(auto)]

pub mod corners;
pub mod middles;
pub mod parts;
