// Search 2.
ghost use Rattle.calls.specs.Promise.{slice};
ghost use Rattle.distances.specs.Promise.{DistanceWithObstacles};

use crate::search::search_distances;
use calls::{Answer, Lengths, judge_2};
use rules::{BarrierDiagonals, Grid, Spacing};
use spread::{Rule, Search};

// The distance of each cell to the nearest target, past obstacles. The limit is not read.
#[tactic(auto, using(crate::proofs::Searching::obstacles_searches, crate::proofs::Searching::obstacles_searched), unfolding(rules::specs::Distances::outcome_2))]
pub fn distance_with_obstacles(
    targets: Grid<'_, u8>,
    obstacles: Grid<'_, u8>,
    spacing: Spacing,
    diagonals: BarrierDiagonals,
    answer: &mut [f32],
    marks: &mut [u8],
    queue: &mut [u32],
) -> Answer
    ensures { DistanceWithObstacles targets.entry.size targets.entry.cells.now obstacles.entry.size obstacles.entry.cells.now spacing diagonals (slice answer.old answer.new) (slice marks.old marks.new) (slice queue.old queue.new) result }
{
    let lengths = Lengths {
        slices: &[answer.len(), marks.len()],
        queue: queue.len(),
    };
    judge_2(targets, obstacles, spacing, lengths)?;
    let search = Search {
        rule: Rule::Obstacles(diagonals),
        size: targets.size,
        limit: 0.0,
    };
    Ok(search_distances(
        search,
        targets.cells,
        obstacles.cells,
        spacing,
        answer,
        marks,
        queue,
    ))
}
