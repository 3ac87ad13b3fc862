// The records of a job: the class list, the type list and the parts in it. The causes 5 and 6 of refusal, and 7 for one
// part.
#![tactic(auto)]

pub mod classes;
pub mod corners;
pub mod kinds;
pub mod parts;
pub mod rising;
pub mod sizes;
