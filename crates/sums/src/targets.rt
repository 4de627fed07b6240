// Search 8.
ghost use Rattle.calls.specs.Promise.{slice};
ghost use Rattle.sums.specs.Promise.{Sums, summed, PromisedGains, SumTargetsWithinTravelDistance};

use crate::amounts::{Amounts, search_amounts};
use calls::{Answer, Counts, Lengths, fill, judge_8, settle};
use rules::Grid;

// The sums once no test refuses: every cell gains the amounts that it is in reach of, and the work buffers are left zero.
fn sum_targets(
    asked: Amounts<'_>,
    answer: &mut [f32],
    distances: &mut [f32],
    marks: &mut [u8],
    added: &mut [u8],
    queue: &mut [u32],
) -> Counts
    requires { Sums asked.size asked.times.now asked.amounts.now asked.limit answer.old distances.old marks.old added.old queue.old }
    ensures { PromisedGains (Ok result) (slice answer.old answer.new) (slice distances.old distances.new) (slice marks.old marks.new) (slice added.old added.new) (slice queue.old queue.new) (summed asked.entry.size asked.entry.times.now asked.entry.amounts.now asked.entry.limit) }
{
    fill(answer, 0.0);
    let takes = search_amounts(asked, answer, distances, marks, added, queue);
    settle(answer);
    fill(distances, 0.0);
    fill(marks, 0);
    fill(added, 0);
    fill(queue, 0);
    Counts { takes }
}

// The sum of the amounts within reach, for each cell.
#[tactic(auto, using(crate::proofs::TargetSums::sums_ask, crate::proofs::TargetSums::sums_are), unfolding(rules::specs::Sums::outcome_8))]
pub fn sum_targets_within_travel_distance(
    times: Grid<'_, f32>,
    amounts: Grid<'_, f32>,
    limit: f32,
    answer: &mut [f32],
    distances: &mut [f32],
    marks: &mut [u8],
    added: &mut [u8],
    queue: &mut [u32],
) -> Answer
    ensures { SumTargetsWithinTravelDistance times.entry.size times.entry.cells.now amounts.entry.size amounts.entry.cells.now limit (slice answer.old answer.new) (slice distances.old distances.new) (slice marks.old marks.new) (slice added.old added.new) (slice queue.old queue.new) result }
{
    let lengths = Lengths {
        slices: &[answer.len(), distances.len(), marks.len(), added.len()],
        queue: queue.len(),
    };
    judge_8(times, amounts, limit, lengths)?;
    let asked = Amounts {
        size: times.size,
        times: times.cells,
        amounts: amounts.cells,
        limit,
    };
    Ok(sum_targets(asked, answer, distances, marks, added, queue))
}
