// Search 7.
ghost use Rattle.calls.specs.Promise.{slice};
ghost use Rattle.sums.specs.Mask.{Given, LeftAnswer, mask_outcome};
ghost use Rattle.sums.specs.Promise.{PromisedSums, SumWithinTravelDistance};

use crate::mask::search_mask;
use crate::mask_cell::{OverBudget, Within};
use calls::{Answer, Counts, Lengths, Refusal, fill, fill_nan, judge_7, settle};
use rules::Grid;

// Leaves the answer as the searches found it, or all NaN where one was over the budget.
fn leave_answer(found: Result<u64, OverBudget>, answer: &mut [f32]) -> Answer
    ensures { LeftAnswer found answer.old answer.new result }
{
    match found {
        Ok(takes) => {
            settle(answer);
            Ok(Counts { takes })
        }
        Err(over) => {
            fill_nan(answer);
            Err(Refusal::OverBudget(over.cell))
        }
    }
}

// The sums once no test refuses: each mask cell gets the sum of what is within its reach, and the work buffers are left zero.
// Inside, the slice `adjacent` notes which cells are listed and then which were added beside them, and is called `met`.
fn sum_mask(
    within: Within<'_>,
    answer: &mut [f32],
    distances: &mut [f32],
    marks: &mut [u8],
    listed: &mut [u32],
    met: &mut [u32],
    queue: &mut [u32],
) -> Answer
    requires { Given within.size within.mask.now within.times.now within.values.now answer.old distances.old marks.old listed.old met.old queue.old }
    ensures { PromisedSums result (slice answer.old answer.new) (slice distances.old distances.new) (slice marks.old marks.new) (slice listed.old listed.new) (slice met.old met.new) (slice queue.old queue.new) (mask_outcome within.entry.size within.entry.mask.now within.entry.times.now within.entry.values.now within.entry.limit within.entry.include_adjacent) }
{
    fill(answer, 0.0);
    let found = search_mask(within, answer, distances, marks, listed, met, queue);
    fill(distances, 0.0);
    fill(marks, 0);
    fill(listed, 0);
    fill(met, 0);
    fill(queue, 0);
    leave_answer(found, answer)
}

// The sum of the values within reach of each mask cell.
#[tactic(auto, using(crate::proofs::WithinSums::mask_given, crate::proofs::WithinSums::mask_outcome_is), unfolding(rules::specs::Sums::outcome_7))]
pub fn sum_within_travel_distance(
    mask: Grid<'_, u8>,
    times: Grid<'_, f32>,
    values: Grid<'_, f32>,
    limit: f32,
    include_adjacent: bool,
    answer: &mut [f32],
    distances: &mut [f32],
    marks: &mut [u8],
    listed: &mut [u32],
    adjacent: &mut [u32],
    queue: &mut [u32],
) -> Answer
    ensures { SumWithinTravelDistance mask.entry.size mask.entry.cells.now times.entry.size times.entry.cells.now values.entry.size values.entry.cells.now limit include_adjacent (slice answer.old answer.new) (slice distances.old distances.new) (slice marks.old marks.new) (slice listed.old listed.new) (slice adjacent.old adjacent.new) (slice queue.old queue.new) result }
{
    let lengths = Lengths {
        slices: &[
            answer.len(),
            distances.len(),
            marks.len(),
            listed.len(),
            adjacent.len(),
        ],
        queue: queue.len(),
    };
    judge_7(mask, times, values, limit, lengths)?;
    let within = Within {
        size: mask.size,
        mask: mask.cells,
        times: times.cells,
        values: values.cells,
        limit,
        include_adjacent,
    };
    sum_mask(within, answer, distances, marks, listed, adjacent, queue)
}
