// The searches for programs in other languages: one export for each, with plain numbers and slices,
// and `haul_answer` for a whole grid file. `haul_keeps_binary32` tells whether floats are what the
// proofs suppose.
//
// A slice passes as a pointer and then a length. The result of a search is 0, or the number of document
// 01's refusal. `takes` is written on acceptance only, `index` only with a refusal that has one. The
// result of `haul_answer` is the length of the answer that it wrote. What C passes stays a number here: flags, sizes and slices one by one,
// and each search has its export.
#![tactic(auto)]

mod by_distance;
mod by_file;
mod by_sum;
mod by_value;
mod environment;
mod grids;
mod report;

pub use by_distance::{
    haul_distance_with_obstacles, haul_distances_up_to, haul_travel_distances_up_to,
};
pub use by_file::haul_answer;
pub use by_sum::{haul_sum_targets_within_travel_distance, haul_sum_within_travel_distance};
pub use by_value::{
    haul_value_at_closest_less_than_travel_target, haul_value_at_closest_target,
    haul_value_at_closest_travel_target,
};
pub use environment::haul_keeps_binary32;
