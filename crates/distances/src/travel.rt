// Search 3, with a cap and without.
ghost use Rattle.calls.specs.Promise.{slice};
ghost use Rattle.distances.specs.Promise.{TravelDistancesUpTo, TravelDistance};

use crate::search::search_travel;
use binary32::infinity;
use calls::{Answer, Lengths, judge_3};
use rules::Grid;
use spread::{Rule, Search};

// The travel time of each cell to the nearest target, up to the limit.
#[tactic(auto, using(crate::proofs::Searching::travel_searches, crate::proofs::Searching::travel_found), unfolding(rules::specs::Distances::outcome_3))]
pub fn travel_distances_up_to(
    targets: Grid<'_, u8>,
    times: Grid<'_, f32>,
    limit: f32,
    answer: &mut [f32],
    marks: &mut [u8],
    queue: &mut [u32],
) -> Answer
    ensures { TravelDistancesUpTo targets.entry.size targets.entry.cells.now times.entry.size times.entry.cells.now limit (slice answer.old answer.new) (slice marks.old marks.new) (slice queue.old queue.new) result }
{
    let lengths = Lengths {
        slices: &[answer.len(), marks.len()],
        queue: queue.len(),
    };
    judge_3(targets, times, limit, lengths)?;
    let search = Search {
        rule: Rule::HalfSum,
        size: targets.size,
        limit,
    };
    Ok(search_travel(search, targets.cells, times.cells, answer, marks, queue))
}

// The travel time of each cell to the nearest target, however long.
pub fn travel_distance(
    targets: Grid<'_, u8>,
    times: Grid<'_, f32>,
    answer: &mut [f32],
    marks: &mut [u8],
    queue: &mut [u32],
) -> Answer
    ensures { TravelDistance targets.entry.size targets.entry.cells.now times.entry.size times.entry.cells.now (slice answer.old answer.new) (slice marks.old marks.new) (slice queue.old queue.new) result }
{
    let limit = infinity();
    travel_distances_up_to(targets, times, limit, answer, marks, queue)
}
