// The search of a case, on dirty buffers of the length that the call wants.
use crate::buffers::Held;
use crate::case::Case;
use crate::grids::{CELLS, SLOTS};
use crate::lent::Lent;
use crate::{answers, by_distance, by_sum, by_value};
use calls::Answer;
use gridfile::Search;

// What the search answers. Each takes other grids and buffers, so that they are matched and not tabled.
fn run(search: Search, case: &Case<'_>, lent: &mut Lent<'_>) -> Answer {
    match search {
        Search::DistancesUpTo => by_distance::search_1(case, lent),
        Search::DistanceWithObstacles => by_distance::search_2(case, lent),
        Search::TravelDistancesUpTo => by_distance::search_3(case, lent),
        Search::ValueAtClosestTarget => by_value::search_4(case, lent),
        Search::ValueAtClosestTravelTarget => by_value::search_5(case, lent),
        Search::ValueAtClosestLessThanTravelTarget => by_value::search_6(case, lent),
        Search::SumWithinTravelDistance => by_sum::search_7(case, lent),
        Search::SumTargetsWithinTravelDistance => by_sum::search_8(case, lent),
    }
}

// Whether the search agrees with the case.
fn agrees_in(search: Search, case: &Case<'_>) -> bool {
    let n = case.bits.len();
    let mut cells = [f32::dirty(); CELLS];
    let mut distances = [f32::dirty(); CELLS];
    let mut marks = [u8::dirty(); CELLS];
    let mut listed = [u32::dirty(); CELLS];
    let mut adjacent = [u32::dirty(); CELLS];
    let mut added = [u8::dirty(); CELLS];
    let mut queue = [u32::dirty(); SLOTS];
    let mut lent = Lent {
        cells: &mut cells[..n],
        distances: &mut distances[..n],
        marks: &mut marks[..n],
        listed: &mut listed[..n],
        adjacent: &mut adjacent[..n],
        added: &mut added[..n],
        queue: &mut queue[..n + 1],
    };
    let answer = run(search, case, &mut lent);
    answers::as_stored(answer, search, case, &lent)
}

// Whether the case's search agrees. A search that is not there agrees with nothing.
pub fn agrees(case: &Case<'_>) -> bool {
    case.settings
        .search
        .is_some_and(|search| agrees_in(search, case))
}
