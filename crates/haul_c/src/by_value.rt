// Searches 4, 5 and 6.
ghost use Rattle.calls.specs.Promise.{slice};
ghost use Rattle.haul_c.specs.Export.{ExportedClosest, ExportedClosestTravel, ExportedClosestLessThan};

use crate::grids::sized;
use crate::report::report;
use values::{
    value_at_closest_less_than_travel_target, value_at_closest_target,
    value_at_closest_travel_target,
};

// Exports search 4, `value_at_closest_target`.
#[unsafe(no_mangle)]
pub extern "C" fn haul_value_at_closest_target(
    rows: i32,
    columns: i32,
    targets: &[u8],
    value_rows: i32,
    value_columns: i32,
    values: &[f32],
    answer: &mut [f32],
    distances: &mut [f32],
    marks: &mut [u8],
    queue: &mut [u32],
    takes: &mut u64,
    index: &mut u32,
) -> u32
    ensures { ExportedClosest rows columns targets.now value_rows value_columns values.now (slice answer.old answer.new) (slice distances.old distances.new) (slice marks.old marks.new) (slice queue.old queue.new) takes.old takes.new index.old index.new result }
{
    let targets = sized(rows, columns, targets);
    let values = sized(value_rows, value_columns, values);
    let answered = value_at_closest_target(targets, values, answer, distances, marks, queue);
    report(answered, takes, index)
}

// Exports search 5, `value_at_closest_travel_target`.
#[unsafe(no_mangle)]
pub extern "C" fn haul_value_at_closest_travel_target(
    rows: i32,
    columns: i32,
    targets: &[u8],
    time_rows: i32,
    time_columns: i32,
    times: &[f32],
    value_rows: i32,
    value_columns: i32,
    values: &[f32],
    answer: &mut [f32],
    distances: &mut [f32],
    marks: &mut [u8],
    queue: &mut [u32],
    takes: &mut u64,
    index: &mut u32,
) -> u32
    ensures { ExportedClosestTravel rows columns targets.now time_rows time_columns times.now value_rows value_columns values.now (slice answer.old answer.new) (slice distances.old distances.new) (slice marks.old marks.new) (slice queue.old queue.new) takes.old takes.new index.old index.new result }
{
    let targets = sized(rows, columns, targets);
    let times = sized(time_rows, time_columns, times);
    let values = sized(value_rows, value_columns, values);
    let answered = value_at_closest_travel_target(
        targets, times, values, answer, distances, marks, queue,
    );
    report(answered, takes, index)
}

// Exports search 6, `value_at_closest_less_than_travel_target`.
#[unsafe(no_mangle)]
pub extern "C" fn haul_value_at_closest_less_than_travel_target(
    rows: i32,
    columns: i32,
    targets: &[u8],
    time_rows: i32,
    time_columns: i32,
    times: &[f32],
    value_rows: i32,
    value_columns: i32,
    values: &[f32],
    limit: f32,
    answer: &mut [f32],
    distances: &mut [f32],
    marks: &mut [u8],
    queue: &mut [u32],
    takes: &mut u64,
    index: &mut u32,
) -> u32
    ensures { ExportedClosestLessThan rows columns targets.now time_rows time_columns times.now value_rows value_columns values.now limit (slice answer.old answer.new) (slice distances.old distances.new) (slice marks.old marks.new) (slice queue.old queue.new) takes.old takes.new index.old index.new result }
{
    let targets = sized(rows, columns, targets);
    let times = sized(time_rows, time_columns, times);
    let values = sized(value_rows, value_columns, values);
    let answered = value_at_closest_less_than_travel_target(
        targets, times, values, limit, answer, distances, marks, queue,
    );
    report(answered, takes, index)
}
