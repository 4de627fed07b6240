// What a search from one cell left is put back for the next one: the listed cells, and those beside them.
ghost use Rattle.std.specs.Prelude.{cond, [], ◌++◌, ◌≡◌, length};
ghost use Rattle.rules.specs.Cells.{neighbours};
ghost use Rattle.rules.specs.Sums.{adjacent_offsets};
ghost use Rattle.reach.specs.Listing.{Cells};
ghost use Rattle.reach.specs.Adjacent.{beside};
ghost use Rattle.reach.specs.Clearing.{put_back, ClearingAround, Clearing};

use crate::adjacent::ADJACENT;
use cells::{neighbour_at, place_of};
use rules::Size;

// The listed cells hold a value again, as all cells did.
fn put_back<T: Copy>(listed: &[u32], value: T, cells: &mut [T])
    requires { Cells (length cells.old) listed.now }
    ensures { cells.new ≡ put_back value cells.old listed.now }
{
    for cell in listed {
        let at = *cell as usize;
        cells[at] = value;
    }
}

// The listed cells' distances are the cap again.
pub fn clear_distances(listed: &[u32], cap: f32, distances: &mut [f32])
    requires { Cells (length distances.old) listed.now }
    ensures { distances.new ≡ put_back cap distances.old listed.now }
{
    put_back(listed, cap, distances);
}

// The cells beside one cell are not met any more.
fn clear_around(size: Size, cell: u32, met: &mut [u32])
    requires { ClearingAround size cell met.old }
    ensures { met.new ≡ put_back 0 met.old (neighbours size cell adjacent_offsets) }
{
    let place = place_of(size, cell);
    for offset in ADJACENT {
        if let Some(beside) = neighbour_at(size, place, offset) {
            let at = beside as usize;
            met[at] = 0;
        }
    }
}

// The cells beside the listed ones are not met any more.
fn clear_beside(size: Size, listed: &[u32], met: &mut [u32])
    requires { Clearing size listed.now met.old }
    ensures { met.new ≡ put_back 0 met.old (beside size listed.now) }
{
    for cell in listed {
        clear_around(size, *cell, met);
    }
}

// The listed cells are not met any more, nor are those beside them if they were included.
pub fn clear_met(size: Size, listed: &[u32], include_adjacent: bool, met: &mut [u32])
    requires { Clearing size listed.now met.old }
    ensures { met.new ≡ put_back 0 met.old (listed.now ++ cond include_adjacent (beside size listed.now) []) }
{
    put_back(listed, 0, met);
    if include_adjacent {
        clear_beside(size, listed, met);
    }
}
