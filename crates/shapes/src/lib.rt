// The shapes of an accepted job, turned once for a call: a table of its parts at each rotation, each under its box, the
// boxes of the pieces, and the choice of the turned piece. What lies below tests parts and pieces as they stand and
// knows no turn.
#![tactic(auto)]

pub mod boxes;
pub mod pieces;
mod quarter_turns;
pub mod turned;
