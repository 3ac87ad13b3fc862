// Live sets, in the lent work words: which candidates stay once a piece is placed.
#![tactic(auto)]

mod board;
pub mod narrowing;
pub mod placing;
