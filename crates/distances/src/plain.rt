// Search 1, with a cap and without.
ghost use Rattle.calls.specs.Promise.{slice};
ghost use Rattle.distances.specs.Promise.{DistancesUpTo, Distance};

use crate::search::search_distances;
use binary32::infinity;
use calls::{Answer, Lengths, judge_1};
use rules::{Grid, Spacing};
use spread::{Rule, Search};

// The distance of each cell to the nearest target, up to the limit.
#[tactic(auto, using(crate::proofs::Searching::plain_searches, crate::proofs::Searching::plain_searched), unfolding(rules::specs::Distances::outcome_1))]
pub fn distances_up_to(
    targets: Grid<'_, u8>,
    spacing: Spacing,
    answer: &mut [f32],
    marks: &mut [u8],
    queue: &mut [u32],
) -> Answer
    ensures { DistancesUpTo targets.entry.size targets.entry.cells.now spacing (slice answer.old answer.new) (slice marks.old marks.new) (slice queue.old queue.new) result }
{
    let lengths = Lengths {
        slices: &[answer.len(), marks.len()],
        queue: queue.len(),
    };
    judge_1(targets, spacing, lengths)?;
    let search = Search {
        rule: Rule::Plain,
        size: targets.size,
        limit: spacing.limit,
    };
    Ok(search_distances(
        search,
        targets.cells,
        targets.cells,
        spacing,
        answer,
        marks,
        queue,
    ))
}

// The distance of each cell to the nearest target, however far.
pub fn distance(
    targets: Grid<'_, u8>,
    cell_size: f32,
    answer: &mut [f32],
    marks: &mut [u8],
    queue: &mut [u32],
) -> Answer
    ensures { Distance targets.entry.size targets.entry.cells.now cell_size (slice answer.old answer.new) (slice marks.old marks.new) (slice queue.old queue.new) result }
{
    let spacing = Spacing {
        cell_size,
        limit: infinity(),
    };
    distances_up_to(targets, spacing, answer, marks, queue)
}
