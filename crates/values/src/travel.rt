// Search 5.
ghost use Rattle.calls.specs.Promise.{slice};
ghost use Rattle.values.specs.Promise.{ValueAtClosestTravelTarget};

use crate::search::search_values;
use binary32::infinity;
use calls::{Answer, Lengths, judge_5};
use rules::Grid;
use spread::{Rule, Search};

// The value of the target that is nearest by travel time, for each cell.
#[tactic(auto, using(crate::proofs::Searching::searches_5, crate::proofs::Searching::searched_5), unfolding(rules::specs::Values::outcome_5))]
pub fn value_at_closest_travel_target(
    targets: Grid<'_, u8>,
    times: Grid<'_, f32>,
    values: Grid<'_, f32>,
    answer: &mut [f32],
    distances: &mut [f32],
    marks: &mut [u8],
    queue: &mut [u32],
) -> Answer
    ensures { ValueAtClosestTravelTarget targets.entry.size targets.entry.cells.now times.entry.size times.entry.cells.now values.entry.size values.entry.cells.now (slice answer.old answer.new) (slice distances.old distances.new) (slice marks.old marks.new) (slice queue.old queue.new) result }
{
    let lengths = Lengths {
        slices: &[answer.len(), distances.len(), marks.len()],
        queue: queue.len(),
    };
    judge_5(targets, times, values, lengths)?;
    let search = Search {
        rule: Rule::ByTime,
        size: targets.size,
        limit: infinity(),
    };
    Ok(search_values(
        search,
        targets.cells,
        times.cells,
        values.cells,
        answer,
        distances,
        marks,
        queue,
    ))
}
