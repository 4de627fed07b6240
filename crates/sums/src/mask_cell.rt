// The search from one mask cell, and the sum of what it reached.
ghost use Rattle.reach.specs.Adjacent.{Beside};
ghost use Rattle.sums.specs.FromMask.{Reaching, ReachedFrom, SumReached, Summing, SummedFrom};

use crate::listing::{Reached, run_listing};
use binary32::infinity;
use reach::{Reach, add_adjacent, clear_distances, clear_met, list_cell};
use rules::Size;
use spread::{Rule, Search, begin_at};

// What search 7 is asked: grids of one size, the budget, and whether the cells beside those that are reached are added too.
#[derive(Clone, Copy)]
pub struct Within<'a> {
    pub size: Size,
    pub mask: &'a [u8],
    pub times: &'a [f32],
    pub values: &'a [f32],
    pub limit: f32,
    pub include_adjacent: bool,
}

// Searches from the mask cell and lists the cells that it reached. The mask cell is listed also where its time is
// nodata, and nothing is taken. What is lent for obstacles and for values that go along is never read.
fn reach_from(
    within: Within<'_>,
    start: u32,
    distances: &mut [f32],
    marks: &mut [u8],
    listed: &mut [u32],
    met: &mut [u32],
    queue: &mut [u32],
) -> Reached
    requires { Reaching within.size within.times.now start distances.old marks.old listed.old met.old queue.old }
    ensures { ReachedFrom within.entry.size within.entry.times.now start
        distances.new marks.new listed.new met.new queue.new result }
{
    let search = Search {
        rule: Rule::FromMaskCell(start),
        size: within.size,
        limit: 0.0,
    };
    let bytes = [0; 1];
    let mut carried = [0.0; 1];
    let times = within.times;
    let ring = begin_at(start, times, distances, marks, queue);
    let reached = run_listing(
        search,
        &bytes,
        times,
        distances,
        &mut carried,
        marks,
        listed,
        met,
        queue,
        ring,
    );
    let count = list_cell(start, met, listed, reached.count);
    Reached {
        takes: reached.takes,
        count,
    }
}

// The sum of the listed cells' values, and of the values of the cells beside them if those are included.
fn sum_reached(reach: Reach<'_>, listed: &[u32], include_adjacent: bool, met: &mut [u32]) -> f32
    requires { Beside reach.size reach.values.now reach.distances.now listed.now met.old }
    ensures { SumReached reach.entry.size reach.entry.values.now reach.entry.distances.now listed.now reach.entry.budget include_adjacent met.new result }
{
    let sum = reach.add_listed(listed);
    if include_adjacent {
        return add_adjacent(reach, listed, sum, met);
    }
    sum
}

// What the search from a mask cell comes to: its takes, and the sum of what it reached.
#[derive(Clone, Copy)]
pub struct MaskSum {
    pub takes: u64,
    pub sum: f32,
}

// The search from this mask cell reached a cell over the budget.
#[derive(Clone, Copy, PartialEq, Eq)]
pub struct OverBudget {
    pub cell: u32,
}

// Searches from one mask cell, without a bound, and adds up what it reached. What it left is put back in either case, so
// that the next can start. The work buffers go along one by one: of lent slices in a struct each function would have to say that
// they are the same slices still.
pub fn sum_from(
    within: Within<'_>,
    start: u32,
    distances: &mut [f32],
    marks: &mut [u8],
    listed: &mut [u32],
    met: &mut [u32],
    queue: &mut [u32],
) -> Result<MaskSum, OverBudget>
    requires { Summing within.size within.times.now within.values.now start distances.old marks.old listed.old met.old queue.old }
    ensures { SummedFrom within.entry.size within.entry.times.now within.entry.values.now within.entry.limit within.entry.include_adjacent start
        distances.new marks.new listed.new met.new queue.new result }
{
    let reached = reach_from(within, start, distances, marks, listed, met, queue);
    let cells = &listed[..reached.count];
    let reach = Reach {
        size: within.size,
        values: within.values,
        distances,
        budget: within.limit,
    };
    let over = reach.is_over_budget(cells);
    let sum = sum_reached(reach, cells, within.include_adjacent, met);
    clear_distances(cells, infinity(), distances);
    clear_met(within.size, cells, within.include_adjacent, met);
    if over {
        return Err(OverBudget { cell: start });
    }
    Ok(MaskSum {
        takes: reached.takes,
        sum,
    })
}
