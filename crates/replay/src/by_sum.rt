// The calls whose answer is sums.
use crate::case::Case;
use crate::lent::Lent;
use calls::Answer;
use sums::{sum_targets_within_travel_distance, sum_within_travel_distance};

// Search 7, `sum_within_travel_distance`, of which the targets are the mask.
pub fn search_7(case: &Case<'_>, lent: &mut Lent<'_>) -> Answer {
    sum_within_travel_distance(
        case.targets,
        case.times,
        case.values,
        case.settings.spacing.limit,
        case.settings.adjacent,
        lent.cells,
        lent.distances,
        lent.marks,
        lent.listed,
        lent.adjacent,
        lent.queue,
    )
}

// Search 8, `sum_targets_within_travel_distance`, of which the values are the amounts.
pub fn search_8(case: &Case<'_>, lent: &mut Lent<'_>) -> Answer {
    sum_targets_within_travel_distance(
        case.times,
        case.values,
        case.settings.spacing.limit,
        lent.cells,
        lent.distances,
        lent.marks,
        lent.added,
        lent.queue,
    )
}
