// Search 4.
ghost use Rattle.calls.specs.Promise.{slice};
ghost use Rattle.values.specs.Promise.{ValueAtClosestTarget};

use crate::search::search_values;
use calls::{Answer, Lengths, judge_4};
use rules::Grid;
use spread::{Rule, Search};

// The value of the nearest target, for each cell.
#[tactic(auto, using(crate::proofs::Searching::closest_searches, crate::proofs::Searching::closest_searched), unfolding(rules::specs::Values::outcome_4))]
pub fn value_at_closest_target(
    targets: Grid<'_, u8>,
    values: Grid<'_, f32>,
    answer: &mut [f32],
    distances: &mut [f32],
    marks: &mut [u8],
    queue: &mut [u32],
) -> Answer
    ensures { ValueAtClosestTarget targets.entry.size targets.entry.cells.now values.entry.size values.entry.cells.now (slice answer.old answer.new) (slice distances.old distances.new) (slice marks.old marks.new) (slice queue.old queue.new) result }
{
    let lengths = Lengths {
        slices: &[answer.len(), distances.len(), marks.len()],
        queue: queue.len(),
    };
    judge_4(targets, values, lengths)?;
    let search = Search {
        rule: Rule::Closest,
        size: targets.size,
        limit: 0.0,
    };
    Ok(search_values(
        search,
        targets.cells,
        values.cells,
        values.cells,
        answer,
        distances,
        marks,
        queue,
    ))
}
