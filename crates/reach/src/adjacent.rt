// The cells beside the listed ones, whose distance is above the budget: each is added once.
ghost use Rattle.std.specs.Prelude.{[], ◌∷◌};
ghost use Rattle.rules.specs.Cells.{neighbours};
ghost use Rattle.rules.specs.Sums.{adjacent_offsets};
ghost use Rattle.reach.specs.Adjacent.{Adjoins, Trying, Around, Beside, AddedAdjacent};

use crate::listing::MET;
use crate::summing::Reach;
use cells::{neighbour_at, place_of};

// The offsets of the cells beside a cell, row and column each, in the order in which they are added.
pub const ADJACENT: [[i32; 2]; 4] = [
    [-1, 0], // above
    [1, 0], // below
    [0, -1], // left
    [0, 1], // right
];

// Adds the value of a cell that was not met and is above the budget, and notes that it is met.
fn add_once(reach: Reach<'_>, cell: u32, sum: f32, met: &mut [u32]) -> f32
    requires { Trying reach.values.now reach.distances.now met.old (cell ∷ []) }
    ensures { Adjoins reach.entry.values.now reach.entry.distances.now reach.entry.budget (cell ∷ []) met.old sum met.new result }
{
    let at = cell as usize;
    if met[at] != 0 {
        return sum;
    }
    if !reach.is_above(cell) {
        return sum;
    }
    met[at] = MET;
    reach.add_value(cell, sum)
}

// Adds the cells beside one cell: above, below, left, right, those that are in the grid.
fn add_around(reach: Reach<'_>, cell: u32, sum: f32, met: &mut [u32]) -> f32
    requires { Around reach.size reach.values.now reach.distances.now met.old cell }
    ensures { Adjoins reach.entry.values.now reach.entry.distances.now reach.entry.budget (neighbours reach.entry.size cell adjacent_offsets)
        met.old sum met.new result }
{
    let place = place_of(reach.size, cell);
    let mut total = sum;
    for offset in ADJACENT {
        if let Some(beside) = neighbour_at(reach.size, place, offset) {
            total = add_once(reach, beside, total, met);
        }
    }
    total
}

// Adds the cells beside the listed ones to a sum, for each listed cell in order.
pub fn add_adjacent(reach: Reach<'_>, listed: &[u32], sum: f32, met: &mut [u32]) -> f32
    requires { Beside reach.size reach.values.now reach.distances.now listed.now met.old }
    ensures { AddedAdjacent reach.entry.size reach.entry.values.now reach.entry.distances.now reach.entry.budget sum listed.now met.new result }
{
    let mut total = sum;
    for cell in listed {
        total = add_around(reach, *cell, total, met);
    }
    total
}
