// Sums within reach: searches 7 and 8.
//
// Each search is a call without conditions. It gives the first of document 01's refusals 1 to 6 that
// applies, before it writes anything, or makes one run of the loop for each start, in row order. Search
// 8 lets every cell that a run takes within the budget gain the start's amount. Search 7 lists the cells
// that a run takes and adds up their values, and gives refusal 7 at the first start whose run reached a
// cell over the budget. The takes of all runs are counted together, and the work buffers are left all
// zero. From these promises alone proofs/ shows that a call is decided, and that the takes of each start
// are within the square.
//
// Each search is a function of its own, by the name that document 01 gives it, and takes what it is lent slice by slice, as document 01
// lists it and C lends it.
#![tactic(auto)]

mod amounts;
mod gain;
mod listing;
mod mask;
mod mask_cell;
mod targets;
mod within;

pub use targets::sum_targets_within_travel_distance;
pub use within::sum_within_travel_distance;
