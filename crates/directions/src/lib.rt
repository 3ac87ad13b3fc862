// A part along a direction: how far its vertices lie, and the edges whose normals separate it from another part.
#![tactic(auto)]

pub mod along;
pub mod edges;
