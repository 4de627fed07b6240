// The search of a request, on buffers of the lengths that its size asks for.
ghost use Rattle.std.specs.Prelude.{◌≡◌, ◌≤◌, length};
ghost use Rattle.answer.specs.Answering.{longest};
ghost use Rattle.answer.specs.Lending.{Small, Lends, stated, OutcomeSent, found};

use crate::write::write_answer;
use calls::Answer;
use cells::cell_count;
use distances::{distance_with_obstacles, distances_up_to, travel_distances_up_to};
use gridfile::{FILE_CELLS_MAX, Request, Search};
use rules::Grid;
use sums::{sum_targets_within_travel_distance, sum_within_travel_distance};
use values::{
    value_at_closest_less_than_travel_target, value_at_closest_target,
    value_at_closest_travel_target,
};

// The program holds every grid that a file may ask for: 1,024 cells at most.
const CELLS: usize = FILE_CELLS_MAX;

// One slot more than cells.
const SLOTS: usize = CELLS + 1;

// Runs the search that the request asks for. Each takes other grids and buffers, so that they are matched and not tabled.
fn run(
    request: Request,
    targets: &[u8],
    obstacles: &[u8],
    times: &[f32],
    values: &[f32],
    cells: &mut [f32],
    distances: &mut [f32],
    marks: &mut [u8],
    listed: &mut [u32],
    adjacent: &mut [u32],
    added: &mut [u8],
    queue: &mut [u32],
) -> Answer
    requires { Lends request.size cells.old distances.old marks.old listed.old adjacent.old added.old queue.old }
    ensures { stated result cells.new ≡ found request targets.now obstacles.now times.now values.now }
{
    let size = request.size;
    let targets = Grid {
        size,
        cells: targets,
    };
    let obstacles = Grid {
        size,
        cells: obstacles,
    };
    let times = Grid { size, cells: times };
    let values = Grid {
        size,
        cells: values,
    };
    let spacing = request.spacing;
    let limit = spacing.limit;
    let diagonals = request.diagonals;
    let include_adjacent = request.adjacent;
    match request.search {
        Search::DistancesUpTo => distances_up_to(targets, spacing, cells, marks, queue),
        Search::DistanceWithObstacles => {
            distance_with_obstacles(targets, obstacles, spacing, diagonals, cells, marks, queue)
        }
        Search::TravelDistancesUpTo => {
            travel_distances_up_to(targets, times, limit, cells, marks, queue)
        }
        Search::ValueAtClosestTarget => {
            value_at_closest_target(targets, values, cells, distances, marks, queue)
        }
        Search::ValueAtClosestTravelTarget => {
            value_at_closest_travel_target(targets, times, values, cells, distances, marks, queue)
        }
        Search::ValueAtClosestLessThanTravelTarget => value_at_closest_less_than_travel_target(
            targets, times, values, limit, cells, distances, marks, queue,
        ),
        Search::SumWithinTravelDistance => sum_within_travel_distance(
            targets,
            times,
            values,
            limit,
            include_adjacent,
            cells,
            distances,
            marks,
            listed,
            adjacent,
            queue,
        ),
        Search::SumTargetsWithinTravelDistance => sum_targets_within_travel_distance(
            times, values, limit, cells, distances, marks, added, queue,
        ),
    }
}

// Answers a request on its grids.
pub fn search(
    request: Request,
    targets: &[u8],
    obstacles: &[u8],
    times: &[f32],
    values: &[f32],
    output: &mut [u8],
) -> usize
    requires small { Small request.size }
    requires room { longest ≤ length output.old }
    ensures { OutcomeSent (found request targets.now obstacles.now times.now values.now) output.old output.new result }
{
    let size = request.size;
    let n = cell_count(size);
    let slots = n + 1;
    let mut cells = [0.0f32; CELLS];
    let mut distances = [0.0f32; CELLS];
    let mut marks = [0u8; CELLS];
    let mut listed = [0u32; CELLS];
    let mut adjacent = [0u32; CELLS];
    let mut added = [0u8; CELLS];
    let mut queue = [0u32; SLOTS];
    let answer = run(
        request,
        targets,
        obstacles,
        times,
        values,
        &mut cells[..n],
        &mut distances[..n],
        &mut marks[..n],
        &mut listed[..n],
        &mut adjacent[..n],
        &mut added[..n],
        &mut queue[..slots],
    );
    write_answer(answer, &cells[..n], output)
}
