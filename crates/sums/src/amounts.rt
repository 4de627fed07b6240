// The searches from the amounts, one after the other in row order.
ghost use Rattle.std.specs.Prelude.{◌≡◌, not, ◌&&◌};
ghost use Rattle.std.specs.Float.Ieee as Ieee;
ghost use Rattle.binary32.specs.Nodata.{nodata};
ghost use Rattle.binary32.specs.Numbers.{plus_zero};
ghost use Rattle.sums.specs.FromAmounts.{Searching, SearchedAmount, SearchingCell, SearchedCell, SearchingAll, SearchedAll};

use crate::gain::run_gaining;
use binary32::is_nodata;
use calls::fill;
use cells::cell_count;
use rules::Size;
use spread::{Grids, Rule, Search, begin_cells};

// What search 8 is asked: grids of one size, and the budget.
#[derive(Clone, Copy)]
pub struct Amounts<'a> {
    pub size: Size,
    pub times: &'a [f32],
    pub amounts: &'a [f32],
    pub limit: f32,
}

// Whether an amount is searched from: it has data and is not 0.
fn counts(amount: f32) -> bool
    ensures { result ≡ not (nodata amount) && not (Ieee.eq amount plus_zero) }
{
    !is_nodata(amount) && amount != 0.0
}

// The search from one amount: each cell within its reach gains it. The answer is how many cells were taken. What is
// lent for targets, obstacles and values is never read.
fn search_amount(
    asked: Amounts<'_>,
    start: u32,
    amount: f32,
    answer: &mut [f32],
    distances: &mut [f32],
    marks: &mut [u8],
    added: &mut [u8],
    queue: &mut [u32],
) -> u64
    requires { Searching asked.size asked.times.now asked.limit answer.old distances.old marks.old added.old queue.old }
    ensures { SearchedAmount asked.entry.size asked.entry.times.now asked.entry.limit start amount answer.old
        answer.new distances.new marks.new added.new queue.new result }
{
    let search = Search {
        rule: Rule::FromAmount(start),
        size: asked.size,
        limit: asked.limit,
    };
    let times = asked.times;
    let bytes = [0; 1];
    let values = [0.0; 1];
    let mut carried = [0.0; 1];
    let ring = begin_cells(
        search,
        Grids {
            targets: &bytes,
            obstacles: &bytes,
            times,
            values: &values,
        },
        distances,
        &mut carried,
        marks,
        queue,
    );
    fill(added, 0);
    run_gaining(
        search,
        &bytes,
        times,
        amount,
        answer,
        distances,
        &mut carried,
        marks,
        added,
        queue,
        ring,
    )
}

// The search from one cell, if its amount counts.
fn search_cell(
    asked: Amounts<'_>,
    cell: u32,
    answer: &mut [f32],
    distances: &mut [f32],
    marks: &mut [u8],
    added: &mut [u8],
    queue: &mut [u32],
) -> u64
    requires { SearchingCell asked.size asked.times.now asked.amounts.now asked.limit cell answer.old distances.old marks.old added.old queue.old }
    ensures { SearchedCell asked.entry.size asked.entry.times.now asked.entry.amounts.now asked.entry.limit cell answer.old
        answer.new distances.new marks.new added.new queue.new result }
{
    let at = cell as usize;
    let amount = asked.amounts[at];
    if counts(amount) {
        return search_amount(asked, cell, amount, answer, distances, marks, added, queue);
    }
    0
}

// The searches from all amounts that count. The answer is how many cells they took together.
pub fn search_amounts(
    asked: Amounts<'_>,
    answer: &mut [f32],
    distances: &mut [f32],
    marks: &mut [u8],
    added: &mut [u8],
    queue: &mut [u32],
) -> u64
    requires { SearchingAll asked.size asked.times.now asked.amounts.now asked.limit answer.old distances.old marks.old added.old queue.old }
    ensures { SearchedAll asked.entry.size asked.entry.times.now asked.entry.amounts.now asked.entry.limit
        answer.new distances.new marks.new added.new queue.new result }
{
    let end = cell_count(asked.size) as u32;
    let mut total: u64 = 0;
    for cell in 0..end {
        let takes = search_cell(asked, cell, answer, distances, marks, added, queue);
        total += takes;
    }
    total
}
