// The searches from the mask cells, one after the other in row order, up to the first that is over the budget.
ghost use Rattle.sums.specs.Mask.{SearchingCell, SearchedCell, SearchingMask, SearchedMask};

use crate::mask_cell::{OverBudget, Within, sum_from};
use binary32::infinity;
use calls::fill;
use cells::cell_count;
use spread::{begin_clear, is_target};

// The search from one cell, if the mask selects it: how many cells it took. Its sum is its answer.
fn search_cell(
    within: Within<'_>,
    cell: u32,
    answer: &mut [f32],
    distances: &mut [f32],
    marks: &mut [u8],
    listed: &mut [u32],
    met: &mut [u32],
    queue: &mut [u32],
) -> Result<u64, OverBudget>
    requires { SearchingCell within.size within.mask.now within.times.now within.values.now cell answer.old distances.old marks.old listed.old met.old queue.old }
    ensures { SearchedCell within.entry.size within.entry.mask.now within.entry.times.now within.entry.values.now within.entry.limit within.entry.include_adjacent cell answer.old
        answer.new distances.new marks.new listed.new met.new queue.new result }
{
    let at = cell as usize;
    if is_target(within.mask[at]) {
        let found = sum_from(within, cell, distances, marks, listed, met, queue)?;
        answer[at] = found.sum;
        return Ok(found.takes);
    }
    Ok(0)
}

// The searches from all cells that the mask selects, unless one is over the budget: how many cells they took together. The
// buffers are cleared once: each search puts back what it reached.
pub fn search_mask(
    within: Within<'_>,
    answer: &mut [f32],
    distances: &mut [f32],
    marks: &mut [u8],
    listed: &mut [u32],
    met: &mut [u32],
    queue: &mut [u32],
) -> Result<u64, OverBudget>
    requires { SearchingMask within.size within.mask.now within.times.now within.values.now answer.old distances.old marks.old listed.old met.old queue.old }
    ensures { SearchedMask within.entry.size within.entry.mask.now within.entry.times.now within.entry.values.now within.entry.limit within.entry.include_adjacent
        answer.new distances.new marks.new listed.new met.new queue.new result }
{
    begin_clear(infinity(), distances, marks);
    fill(met, 0);
    let end = cell_count(within.size) as u32;
    let mut total: u64 = 0;
    for cell in 0..end {
        let takes = search_cell(within, cell, answer, distances, marks, listed, met, queue)?;
        total += takes;
    }
    Ok(total)
}
