// What a search is: its rule, its size and its limit.
use rules::{BarrierDiagonals, Size};

// How a search begins and steps.
#[derive(Clone, Copy)]
pub enum Rule {
    // distances_up_to: d + s, from the targets, up to the limit.
    Plain,
    // distance_with_obstacles: d + s, past obstacles.
    Obstacles(BarrierDiagonals),
    // travel_distances_up_to: d + (s / 2) * (a + b), from the targets, up to the limit.
    HalfSum,
    // value_at_closest_target: d + s, and the value goes along.
    Closest,
    // value_at_closest_travel_target and its form with a limit: d + s * b, and the value goes along.
    ByTime,
    // sum_within_travel_distance: d + (s / 2) * (a + b), from one cell.
    FromMaskCell(u32),
    // sum_targets_within_travel_distance: d + s * b, from one cell, where a nodata time can be crossed.
    FromAmount(u32),
}

// All grids have the one size. The rules `Obstacles`, `Closest` and `FromMaskCell` do not read the limit.
#[derive(Clone, Copy)]
pub struct Search {
    pub rule: Rule,
    pub size: Size,
    pub limit: f32,
}
