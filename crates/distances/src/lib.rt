// Distances to the nearest target: searches 1, 2 and 3.
//
// Each search is a call without conditions. It gives the first refusal of document 01 that applies,
// before it writes anything, or leaves in the answer what the rules of the search give, counts the
// takes, and leaves the work buffers all zero. From these promises alone proofs/ shows that a call is
// decided, and demand 3: what an accepted call answers are the least sums.
//
// Each search is a function of its own, by the name that document 01 gives it, and takes what it is lent slice by slice, as document 01
// lists it and C lends it.
#![tactic(auto)]

mod obstacles;
mod plain;
mod search;
mod travel;

pub use obstacles::distance_with_obstacles;
pub use plain::{distance, distances_up_to};
pub use travel::{travel_distance, travel_distances_up_to};
