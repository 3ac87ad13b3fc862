// Parts as flat slices, x and y of each vertex in turn: their vertices and their bounding boxes.
#![tactic(auto)]

pub mod extents;
pub mod vertices;
