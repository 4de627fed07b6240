// The calls whose answer is distances. One function for each search, here and beside: each call takes other grids and buffers.
use crate::case::Case;
use crate::lent::Lent;
use calls::Answer;
use distances::{distance_with_obstacles, distances_up_to, travel_distances_up_to};

// Search 1, `distances_up_to`.
pub fn search_1(case: &Case<'_>, lent: &mut Lent<'_>) -> Answer {
    distances_up_to(
        case.targets,
        case.settings.spacing,
        lent.cells,
        lent.marks,
        lent.queue,
    )
}

// Search 2, `distance_with_obstacles`.
pub fn search_2(case: &Case<'_>, lent: &mut Lent<'_>) -> Answer {
    distance_with_obstacles(
        case.targets,
        case.obstacles,
        case.settings.spacing,
        case.settings.diagonals,
        lent.cells,
        lent.marks,
        lent.queue,
    )
}

// Search 3, `travel_distances_up_to`.
pub fn search_3(case: &Case<'_>, lent: &mut Lent<'_>) -> Answer {
    travel_distances_up_to(
        case.targets,
        case.times,
        case.settings.spacing.limit,
        lent.cells,
        lent.marks,
        lent.queue,
    )
}
