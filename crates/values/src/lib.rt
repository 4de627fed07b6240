// The value at the nearest target: searches 4, 5 and 6.
//
// Each search is a call without conditions. It gives the first refusal of document 01 that applies,
// before it writes anything, or leaves in the answer what the rules of the search give, counts the
// takes, and leaves the work buffers all zero. From these promises alone proofs/ shows that a call is
// decided, that each value is that of a closest target, and that the takes are within the square.
//
// Each search is a function of its own, by the name that document 01 gives it, and takes what it is lent slice by slice, as document 01
// lists it and C lends it.
#![tactic(auto)]

mod closest;
mod less_than;
mod search;
mod travel;

pub use closest::value_at_closest_target;
pub use less_than::value_at_closest_less_than_travel_target;
pub use travel::value_at_closest_travel_target;
