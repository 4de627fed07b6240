// Searches 7 and 8.
ghost use Rattle.std.specs.Prelude.{◌≡◌};
ghost use Rattle.calls.specs.Promise.{slice};
ghost use Rattle.haul_c.specs.Export.{ExportedSumWithin, ExportedSumTargets, yes};

use crate::grids::sized;
use crate::report::report;
use sums::{sum_targets_within_travel_distance, sum_within_travel_distance};

// 0 is no, any other number yes.
fn is_yes(flag: u32) -> bool
    ensures { result ≡ yes flag }
{
    flag != 0
}

// Exports search 7, `sum_within_travel_distance`.
#[unsafe(no_mangle)]
pub extern "C" fn haul_sum_within_travel_distance(
    rows: i32,
    columns: i32,
    mask: &[u8],
    time_rows: i32,
    time_columns: i32,
    times: &[f32],
    value_rows: i32,
    value_columns: i32,
    values: &[f32],
    limit: f32,
    include_adjacent: u32,
    answer: &mut [f32],
    distances: &mut [f32],
    marks: &mut [u8],
    listed: &mut [u32],
    adjacent: &mut [u32],
    queue: &mut [u32],
    takes: &mut u64,
    index: &mut u32,
) -> u32
    ensures { ExportedSumWithin rows columns mask.now time_rows time_columns times.now value_rows value_columns values.now limit include_adjacent (slice answer.old answer.new) (slice distances.old distances.new) (slice marks.old marks.new) (slice listed.old listed.new) (slice adjacent.old adjacent.new) (slice queue.old queue.new) takes.old takes.new index.old index.new result }
{
    let mask = sized(rows, columns, mask);
    let times = sized(time_rows, time_columns, times);
    let values = sized(value_rows, value_columns, values);
    let included = is_yes(include_adjacent);
    let answered = sum_within_travel_distance(
        mask, times, values, limit, included, answer, distances, marks, listed, adjacent, queue,
    );
    report(answered, takes, index)
}

// Exports search 8, `sum_targets_within_travel_distance`.
#[unsafe(no_mangle)]
pub extern "C" fn haul_sum_targets_within_travel_distance(
    rows: i32,
    columns: i32,
    times: &[f32],
    amount_rows: i32,
    amount_columns: i32,
    amounts: &[f32],
    limit: f32,
    answer: &mut [f32],
    distances: &mut [f32],
    marks: &mut [u8],
    added: &mut [u8],
    queue: &mut [u32],
    takes: &mut u64,
    index: &mut u32,
) -> u32
    ensures { ExportedSumTargets rows columns times.now amount_rows amount_columns amounts.now limit (slice answer.old answer.new) (slice distances.old distances.new) (slice marks.old marks.new) (slice added.old added.new) (slice queue.old queue.new) takes.old takes.new index.old index.new result }
{
    let times = sized(rows, columns, times);
    let amounts = sized(amount_rows, amount_columns, amounts);
    let answered = sum_targets_within_travel_distance(
        times, amounts, limit, answer, distances, marks, added, queue,
    );
    report(answered, takes, index)
}
