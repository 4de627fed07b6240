// Search 6.
ghost use Rattle.calls.specs.Promise.{slice};
ghost use Rattle.values.specs.Promise.{ValueAtClosestLessThanTravelTarget};

use crate::search::search_values;
use calls::{Answer, Lengths, judge_6};
use rules::Grid;
use spread::{Rule, Search};

// The value of the target that is nearest by travel time, of those that are nearer than the limit, for each cell: 0 where
// there is none. A target holds its own value under any limit.
#[tactic(auto, using(crate::proofs::Searching::searches_6, crate::proofs::Searching::searched_6), unfolding(rules::specs::Values::outcome_6))]
pub fn value_at_closest_less_than_travel_target(
    targets: Grid<'_, u8>,
    times: Grid<'_, f32>,
    values: Grid<'_, f32>,
    limit: f32,
    answer: &mut [f32],
    distances: &mut [f32],
    marks: &mut [u8],
    queue: &mut [u32],
) -> Answer
    ensures { ValueAtClosestLessThanTravelTarget targets.entry.size targets.entry.cells.now times.entry.size times.entry.cells.now values.entry.size values.entry.cells.now limit (slice answer.old answer.new) (slice distances.old distances.new) (slice marks.old marks.new) (slice queue.old queue.new) result }
{
    let lengths = Lengths {
        slices: &[answer.len(), distances.len(), marks.len()],
        queue: queue.len(),
    };
    judge_6(targets, times, values, limit, lengths)?;
    let search = Search {
        rule: Rule::ByTime,
        size: targets.size,
        limit,
    };
    Ok(search_values(
        search,
        targets.cells,
        times.cells,
        values.cells,
        answer,
        distances,
        marks,
        queue,
    ))
}
