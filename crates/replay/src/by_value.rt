// The calls whose answer is values.
use crate::case::Case;
use crate::lent::Lent;
use calls::Answer;
use values::{
    value_at_closest_less_than_travel_target, value_at_closest_target,
    value_at_closest_travel_target,
};

// Search 4, `value_at_closest_target`.
pub fn search_4(case: &Case<'_>, lent: &mut Lent<'_>) -> Answer {
    value_at_closest_target(
        case.targets,
        case.values,
        lent.cells,
        lent.distances,
        lent.marks,
        lent.queue,
    )
}

// Search 5, `value_at_closest_travel_target`.
pub fn search_5(case: &Case<'_>, lent: &mut Lent<'_>) -> Answer {
    value_at_closest_travel_target(
        case.targets,
        case.times,
        case.values,
        lent.cells,
        lent.distances,
        lent.marks,
        lent.queue,
    )
}

// Search 6, `value_at_closest_less_than_travel_target`.
pub fn search_6(case: &Case<'_>, lent: &mut Lent<'_>) -> Answer {
    value_at_closest_less_than_travel_target(
        case.targets,
        case.times,
        case.values,
        case.settings.spacing.limit,
        lent.cells,
        lent.distances,
        lent.marks,
        lent.queue,
    )
}
