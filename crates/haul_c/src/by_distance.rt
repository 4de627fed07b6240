// Searches 1, 2 and 3.
ghost use Rattle.calls.specs.Promise.{slice};
ghost use Rattle.haul_c.specs.Export.{ExportedUpTo, ExportedObstacles, ExportedTravelUpTo};

use crate::grids::sized;
use crate::report::report;
use distances::{distance_with_obstacles, distances_up_to, travel_distances_up_to};
use gridfile::diagonals_of;
use rules::Spacing;

// Exports search 1, `distances_up_to`.
#[unsafe(no_mangle)]
pub extern "C" fn haul_distances_up_to(
    rows: i32,
    columns: i32,
    targets: &[u8],
    cell_size: f32,
    limit: f32,
    answer: &mut [f32],
    marks: &mut [u8],
    queue: &mut [u32],
    takes: &mut u64,
    index: &mut u32,
) -> u32
    ensures { ExportedUpTo rows columns targets.now cell_size limit (slice answer.old answer.new) (slice marks.old marks.new) (slice queue.old queue.new) takes.old takes.new index.old index.new result }
{
    let targets = sized(rows, columns, targets);
    let spacing = Spacing { cell_size, limit };
    let answered = distances_up_to(targets, spacing, answer, marks, queue);
    report(answered, takes, index)
}

// Exports search 2, `distance_with_obstacles`. For the diagonals 0 is Include, any other number Exclude.
#[unsafe(no_mangle)]
pub extern "C" fn haul_distance_with_obstacles(
    rows: i32,
    columns: i32,
    targets: &[u8],
    obstacle_rows: i32,
    obstacle_columns: i32,
    obstacles: &[u8],
    cell_size: f32,
    diagonals: u32,
    answer: &mut [f32],
    marks: &mut [u8],
    queue: &mut [u32],
    takes: &mut u64,
    index: &mut u32,
) -> u32
    ensures { ExportedObstacles rows columns targets.now obstacle_rows obstacle_columns obstacles.now cell_size diagonals (slice answer.old answer.new) (slice marks.old marks.new) (slice queue.old queue.new) takes.old takes.new index.old index.new result }
{
    let targets = sized(rows, columns, targets);
    let obstacles = sized(obstacle_rows, obstacle_columns, obstacles);
    let spacing = Spacing {
        cell_size,
        limit: 0.0,
    };
    let way = diagonals_of(diagonals);
    let answered = distance_with_obstacles(targets, obstacles, spacing, way, answer, marks, queue);
    report(answered, takes, index)
}

// Exports search 3, `travel_distances_up_to`.
#[unsafe(no_mangle)]
pub extern "C" fn haul_travel_distances_up_to(
    rows: i32,
    columns: i32,
    targets: &[u8],
    time_rows: i32,
    time_columns: i32,
    times: &[f32],
    limit: f32,
    answer: &mut [f32],
    marks: &mut [u8],
    queue: &mut [u32],
    takes: &mut u64,
    index: &mut u32,
) -> u32
    ensures { ExportedTravelUpTo rows columns targets.now time_rows time_columns times.now limit (slice answer.old answer.new) (slice marks.old marks.new) (slice queue.old queue.new) takes.old takes.new index.old index.new result }
{
    let targets = sized(rows, columns, targets);
    let times = sized(time_rows, time_columns, times);
    let answered = travel_distances_up_to(targets, times, limit, answer, marks, queue);
    report(answered, takes, index)
}
